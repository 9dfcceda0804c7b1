// Command lines of the shell, read to the commands that they are.
#![tactic(auto)]

pub mod argument_templates;
pub mod arguments;
pub mod command_names;
pub mod commands;
pub mod laws;
pub mod words;

pub use commands::{Command, read_command};
