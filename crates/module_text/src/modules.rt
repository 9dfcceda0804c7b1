// What a module is.
use crate::{Hunks, WordList};

/// A hunk: a piece of code or data, in words.
#[derive(Drop)]
pub struct Hunk {
    /// Its words.
    pub words: WordList,
    /// The offsets, in words, of those words to which the hunk's own word address is added when it is loaded: once for
    /// each time that the offset is here.
    pub relocations: WordList,
}

/// A module: hunks, in their order.
#[derive(Drop)]
pub struct Module {
    /// Its hunks, in their order.
    pub hunks: Hunks,
}
