// What is read of a session, for its boot.

use crate::parts::Piece;
use std::alloc::Global;

/// What a line gives to the boot.
#[derive(Clone, Copy)]
pub enum ItemKind {
    /// Bytes of a program.
    Code,
    /// A file, which begins.
    File,
    /// A task.
    Task,
}

/// A line that gives something to the boot.
#[derive(Drop)]
pub struct Item<'a> {
    /// Its number.
    pub line: usize,
    /// What it gives.
    pub kind: ItemKind,
    /// The parts of the line.
    pub pieces: Vec<Piece<'a>>,
    /// How many bytes: of program bytes, or of the lines of a file, each with its LF.
    pub bytes: u64,
    /// How many lines of text come after it, of a file.
    pub texts: usize,
}

/// A session, as far as it is read.
#[derive(Drop)]
pub struct SessionDraft<'a> {
    /// The version, or 0 where it is not known.
    pub version: u64,
    /// How many words the store has, or 0 where it is not known.
    pub store: u64,
    /// Whether the machine has no kernel.
    pub is_bare: bool,
    /// Whether the machine has the residents.
    pub has_residents: bool,
    /// Whether they report faults.
    pub has_reports: bool,
    /// The lines that give something to the boot.
    pub items: Vec<Item<'a>>,
}

impl<'a> SessionDraft<'a> {
    /// A session of which nothing is read.
    pub fn new(alloc: Global) -> SessionDraft<'a> {
        SessionDraft {
            version: 0,
            store: 0,
            is_bare: false,
            has_residents: false,
            has_reports: false,
            items: Vec::new(alloc),
        }
    }
}
