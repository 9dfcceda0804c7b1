// A machine of either kind, from a session to its runs, and the history that the events of each run are.
#![tactic(auto)]

pub mod event_history;
mod kinds;
pub mod laws;
pub mod machine;
pub mod packet_history;
pub mod parts;
mod runs;
mod start;

pub use laws::{boot_law, history_law, run_law, step_law};
pub use machine::Machine;
pub use parts::Parts;
pub use start::boot;
