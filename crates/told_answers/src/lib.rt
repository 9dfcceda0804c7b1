// The answer of a program that says what a tool gives.
#![tactic(auto)]

pub mod answers;

pub use answers::write_told;
