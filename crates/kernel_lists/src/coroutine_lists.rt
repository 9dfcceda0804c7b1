// Coroutines of a task: made, deleted, called, resumed, and waiting for their parents.

pub mod calls;
pub mod creation;
pub mod ends;
pub mod laws;
pub mod members;
mod switch;

pub use calls::{call, ended, resume, wait};
pub use creation::{LEAST_HIGHEST, create, delete};
pub use ends::CoEnd;
pub use members::check_idle;
