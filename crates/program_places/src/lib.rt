// The map of a session, and by it the line of assembly at an address and the addresses of a label or a line.
#![tactic(auto)]

pub mod addresses;
pub mod answers;
mod drafts;
pub mod laws;
pub mod lines;
pub mod loaded;
pub mod maps;
pub mod reading;
pub mod requests;
mod statements;
pub mod wrongs;

pub use addresses::addresses_of;
pub use lines::{LabelFound, LineFound, line_at, line_in, push_place};
pub use loaded::{LoadedHunk, is_placed, placed_hunks, push_loaded};
pub use maps::{MappedHunk, MappedLine, PlacedHunk, ProgramMap};
pub use reading::read_map;
