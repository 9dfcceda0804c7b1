// The shell: it reads lines, does the commands that they are, and starts programs.
#![tactic(auto)]

mod commands;
pub mod laws;
mod listings;
pub mod modes;
mod programs;
mod prompts;
pub mod shell_listings;
pub mod shell_programs;
pub mod state;
pub mod turns;
mod typing;

pub use modes::Mode;
pub use shell_listings::tasks::write_tasks;
pub use state::ShellState;
pub use turns::shell_turn;
