// The kernel calls on modules: one is loaded from its text, taken out again, and added to those of a task.

mod addition;
mod loading;
mod modules_of;
mod unloading;

pub use addition::add_module;
pub use loading::load_module;
pub use unloading::unload_module;
