// What the program does: a command, its input, and the answer.
#![tactic(auto)]

mod answer;
mod commands;
mod debugging;
mod dump;
mod ends;
pub mod laws;
mod machines;
mod messages;
pub mod program;
mod reports;
mod resuming;
mod rings;
mod saving;
mod session;
pub mod session_generator;

pub use laws::{answer_law, continued_law, trace_law};
pub use program::tripos;
pub use session_generator::generate;
