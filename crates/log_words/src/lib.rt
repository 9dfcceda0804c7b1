// What happened in the steps of a run, in words, from the lines that say it step by step.
#![tactic(auto)]

pub mod bytes;
pub mod calls;
pub mod events;
pub mod heads;
pub mod kinds;
pub mod lines;
pub mod packets;
pub mod step_lines;
pub mod step_texts;
pub mod tasks;
pub mod tellers;
pub mod turns;

pub use kinds::Wanted;
pub use step_texts::{StepLists, read_step};
pub use tellers::Teller;
