// What the kernel calls share: the codes of their refusals, the task that calls and the guest that is called for, the modules that
// there are, what a call makes of the kernel's lists, and what it sees besides them.

pub mod callers;
pub mod codes;
pub mod guests;
pub mod modules;

pub use callers::caller;
pub use guests::guest;
pub use modules::is_module;
