// What both programs share: how a program answers the input that it reads, and lines for the kernel's events.
#![tactic(auto)]

pub mod inputs;
pub mod messages;
pub mod status;
pub mod trace_log;

pub use inputs::{TextAnswers, answer_input};
pub use messages::{status_after, write_no_boot, write_refused};
pub use status::{Status, exit_code};
