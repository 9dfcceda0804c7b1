// What is wrong in the text of a session, the debugger's lines, a ring or a module, in words.
#![tactic(auto)]

pub mod boots;
pub mod bytes;
pub mod debugger_lines;
pub mod drafts;
pub mod findings;
pub mod forms;
pub mod kinds;
pub mod line_words;
pub mod lines;
pub mod modules;
pub mod nearness;
pub mod numbers;
pub mod other_lines;
pub mod part_forms;
pub mod part_ranges;
pub mod parts;
pub mod places;
pub mod reading;
pub mod rings;
pub mod sessions;
pub mod telling;

pub use kinds::{TextKind, kind_named};
pub use telling::{Refusal, text_errors};
