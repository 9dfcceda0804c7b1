// What happens in each step of a machine, in words.

pub mod answers;
pub mod before;
pub mod boots;
pub mod calls;
pub mod changes;
mod console;
mod event_lines;
pub mod event_logs;
pub mod faults;
pub mod guests;
pub mod laws;
pub mod moments;
pub mod packets;
pub mod parties;
mod refusals;
pub mod steps;
pub mod turns;
pub mod writes;

pub use boots::gather_boot;
pub use laws::{call_law, number_law};
pub use steps::gather_steps;
