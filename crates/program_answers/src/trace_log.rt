// A log that gathers a line for each event, from which its maker knows what the sink holds.

pub mod event_lines;
pub mod event_words;
mod lines;
pub mod logs;
pub mod trails;

pub use event_lines::{note_all, print_events};
pub use event_words::{EventWords, TraceWords};
pub use logs::TraceLog;
pub use trails::Trail;
