// The machine that was saved, from what its text says.

mod discs;
mod files;
pub mod laws;
pub mod machine;
mod parts;
mod pipes;
mod resident_rules;
mod store_rules;
mod streams;

pub use laws::machine_law;
pub use machine::machine_of;
