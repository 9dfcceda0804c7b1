// The kernel calls on coroutines of the task that runs.

mod creation;
mod deletion;
mod refusals;
mod switches;

pub use creation::createco;
pub use deletion::deleteco;
pub use switches::{callco, cowait, ended, resumeco};
