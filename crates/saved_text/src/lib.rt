// The text of a saved machine: what it says, read and printed.
#![tactic(auto)]

mod drafts;
pub mod images;
pub mod laws;
pub mod lists;
mod ranges;
pub mod read;
pub mod saved_lines;

pub use images::{Image, Mode, SavedFile, SavedPipe, SavedStream};
pub use lists::{Files, Pipes, Streams};
pub use read::{ReadImage, read_image};
