// What the running guest does in a step.
#![tactic(auto)]

mod instructions;
pub mod laws;
pub mod turns;

pub use instructions::{execute_guest, execute_next, guest_writes, is_kernel_word};
pub use turns::{TurnEnd, guest_turn};
