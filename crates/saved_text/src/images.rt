// What the text of a saved machine says.
use crate::{Files, Pipes, Streams};
use ram_disc::Name;
use session_text::{Bytes, Keys};
use word_store::{Regs, Store};

/// A saved machine as its text has it, and the steps that it is to take. What is in it may pass the limits of a machine:
/// then no machine stands for it.
#[derive(Drop)]
pub struct Image {
    /// 1 or 2.
    pub version: u32,
    /// Whether the machine is bare: it has no kernel. Then all from the type-ahead to the keys is empty.
    pub bare: bool,
    /// The words of its store.
    pub store: Store,
    /// The steps from one tick of the clock to the next; 0 on a bare machine.
    pub period: u32,
    /// The steps taken so far.
    pub step: u64,
    /// The registers.
    pub regs: Regs,
    /// The bytes of the type-ahead, the oldest first.
    pub ring: Bytes,
    /// Whether the console's line is finished.
    pub finished: bool,
    /// The bytes of the console's line.
    pub line: Bytes,
    /// What the shell does next.
    pub mode: Mode,
    /// The bytes of the shell's line.
    pub command: Bytes,
    /// The files, in byte order of their names.
    pub files: Files,
    /// The streams that are open, in the order of their numbers.
    pub streams: Streams,
    /// The pipes, in the order of their numbers.
    pub pipes: Pipes,
    /// The keys that are still to come, each with the step at which it is due.
    pub keys: Keys,
    /// The steps that it is to take.
    pub go: u64,
}

/// What a shell does next.
#[derive(Clone, Copy)]
pub enum Mode {
    /// It prompts.
    Prompt,
    /// It has asked for a line.
    Reading,
    /// It waits for the task of this number.
    Waiting(u32),
    /// It types a file.
    Typing,
}

/// A file.
#[derive(Drop)]
pub struct SavedFile {
    /// Its name.
    pub name: Name,
    /// Its bytes.
    pub bytes: Bytes,
}

/// A stream that is open.
#[derive(Drop)]
pub struct SavedStream {
    /// Its number, from 1 to 17.
    pub k: u32,
    /// Whether it writes; else it reads.
    pub writes: bool,
    /// Its position in the file, in bytes.
    pub position: u32,
    /// The name of its file.
    pub name: Name,
}

/// A pipe.
#[derive(Drop)]
pub struct SavedPipe {
    /// Its number, from 1 to 8.
    pub k: u32,
    /// Whether its reading end is open.
    pub reading: bool,
    /// Whether its writing end is open.
    pub writing: bool,
    /// Whether that end was ever opened.
    pub written: bool,
    /// Its name.
    pub name: Name,
    /// The bytes that it holds, the oldest first.
    pub held: Bytes,
}
