// The lines of assembly at addresses of a machine, and the addresses of labels and lines.

pub mod hunks;
pub mod sessions;
pub mod tool;

pub(crate) use tool::places_text;
