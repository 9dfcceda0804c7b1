// The kernel calls about a task.

mod creation;
mod deletion;
mod flags;
mod hold;
pub mod laws;
mod module_tests;
mod new_tasks;
mod packets_out;
mod priority;
mod release;

pub use creation::{create_task, create_task_of};
pub use deletion::delete_task;
pub use flags::{set_flags, test_flags};
pub use hold::hold_task;
pub use priority::change_pri;
pub use release::release_task;
