// The machine without a kernel: what a session puts into it, its steps, its calls, and its runs.
#![tactic(auto)]

mod advances;
pub mod boot;
pub mod calls;
pub mod laws;
pub mod machine;
pub mod parts;
mod passes;
mod steps;

pub use machine::Bare;
pub use parts::BareParts;
