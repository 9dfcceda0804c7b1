// Files in memory: a disc of sectors, with names and streams.
#![tactic(auto)]

pub mod codes;
mod contents;
mod directory;
pub mod discs;
pub mod file_bytes;
pub mod laws;
pub mod names;
mod places;
mod sectors;

pub use discs::{Disc, END_OF_FILES, END_OF_STREAMS};
pub use file_bytes::FileBytes;
pub use names::Name;
