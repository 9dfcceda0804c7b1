// The machine with a kernel: what a step does to it, how it runs, and how a session boots it.
#![tactic(auto)]

pub mod kernel_steps;
pub mod machine_boot;
pub mod running_machine;

pub use running_machine::{Machine, Parts, Script};
