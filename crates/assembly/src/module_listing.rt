// Code as text: a line for each instruction.

pub mod hunks;
pub mod laws;
pub mod lines;
pub mod listing;

pub use hunks::HunkBytes;
pub use lines::line_at;
pub use listing::{disassemble, disassemble_module};
