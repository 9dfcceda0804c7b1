// A journal of stores, from which steps are taken back. It knows no machine.

mod former_words;
pub mod journals;
pub mod laws;
mod members;

pub use journals::Journal;
