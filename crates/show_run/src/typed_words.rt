// What the debugger's short words show.

pub mod addresses;
pub mod assembly_lines;
pub mod backs;
pub mod backtraces;
pub mod breaks;
pub mod calls;
pub mod cases;
pub mod debuggees;
pub mod fields;
pub mod frames;
pub mod gathered;
pub mod help;
pub mod lines;
pub mod listed_words;
pub mod machines;
pub mod registers;
pub mod requests;
pub mod sentences;
pub mod stops;
pub mod tasks;
pub mod told_writes;
pub mod tool;
pub mod words;
pub mod writers;

pub(crate) use tool::debugged_words;
