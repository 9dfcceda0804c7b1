// The state of a machine in words.
#![tactic(auto)]

mod awaited;
mod deadlock;
pub mod laws;
mod modules;
mod names;
mod packets;
mod places;
pub mod programs;
mod queues;
mod runner;
mod sent;
pub mod states;
mod tasks;

pub use programs::Program;
pub use states::gather_state;
