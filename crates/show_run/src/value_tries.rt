// A session is run with each of many values of one number, and the runs that come to the same are a group.
mod answers;
pub mod consoles;
pub mod groups;
pub mod laws;
pub mod outcomes;
pub mod runs;
pub mod settings;
pub mod spans;
pub mod texts;
pub mod words;
