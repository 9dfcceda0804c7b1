// What the third program does: the tool that the words ask for, with its input.
#![tactic(auto)]

pub mod answers;
pub mod commands;
pub mod laws;
pub mod program;

pub use laws::answer_law;
pub use program::tools;
