// A machine with a kernel: what it consists of, its steps and its runs.

mod devices;
pub mod machine;
pub mod parts;
mod plain_steps;
mod residents;
mod runs;
pub mod script;
mod spans;
mod steps;
mod turns;

pub use machine::Machine;
pub use parts::Parts;
pub use script::Script;
