// The debugger: lines that take steps and show what a machine is, and what they write.
#![tactic(auto)]

pub mod blocks;
pub mod breakpoints;
pub mod histories;
pub mod instructions;
pub mod laws;
pub mod limits;
pub mod lines;
pub mod machine_history;
pub mod orders;
pub mod places;
mod queues;
pub mod runs;
pub mod sessions;
mod tasks;
pub mod undo_journal;
pub mod words;

pub use blocks::gather_blocks;
pub use breakpoints::Breakpoints;
pub use histories::debug_back;
pub use instructions::gather_instructions;
pub use limits::Limits;
pub use lines::{check_lines, goes_back};
pub use machine_history::History;
pub use orders::{BadLine, Order, order_of};
pub use places::{gather_place, gather_registers};
pub use runs::{is_guest_next, steps_left, take_steps_to};
pub use sessions::{debug, obey};
pub use words::gather_word;
