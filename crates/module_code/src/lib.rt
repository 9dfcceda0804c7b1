// Modules read back: the assembly that makes one again, and the globals that modules set and use.
#![tactic(auto)]

pub mod flow;
pub mod global_tables;
pub mod global_uses;
pub mod hunk_assembly;
pub mod hunk_code;
pub mod hunk_words;
pub mod known_names;
pub mod labels;
pub mod lines;
pub mod made_again;
pub mod module_uses;
pub mod names;
pub mod needs;
pub mod parts;
pub mod reasons;
pub mod requests;
pub mod unassembly;
pub mod units;

pub use needs::global_needs;
pub use unassembly::module_assembly;
