// What a session is.
use crate::{Bytes, Keys, Lines, Names};
use ram_disc::Name;

/// A session: the machine to boot, and how many steps it runs.
#[derive(Drop)]
pub struct Session {
    /// 1 or 2.
    pub version: u32,
    /// The size of the store in words.
    pub store: u32,
    /// The steps from one tick of the clock to the next; 0 on a bare machine.
    pub period: u32,
    /// Whether the machine is bare: it runs one program, with no kernel.
    pub bare: bool,
    /// Whether the resident tasks are there.
    pub resident: bool,
    /// Whether the task that reports faults is there.
    pub debug: bool,
    /// What is put into the machine before it runs, line by line.
    pub lines: Lines,
    /// The keys typed, each with the step at which it is due.
    pub keys: Keys,
    /// The most steps that it runs.
    pub go: u64,
}

/// A line of a session, and its number in the text, from 1.
#[derive(Drop)]
pub struct SessionLine {
    /// Its number in the text.
    pub line: u32,
    /// What it puts into the machine.
    pub form: LineForm,
}

/// What a line of a session puts into the machine.
#[derive(Drop)]
pub enum LineForm {
    /// Bytes of a bare machine's program, which follow those of the lines before.
    Code(Bytes),
    /// A file.
    File {
        /// Its name.
        name: Name,
        /// Its bytes.
        bytes: Bytes,
    },
    /// A task with its priority, the highest index of its stack, and the files that its program is loaded from.
    Task {
        /// Its number.
        id: u32,
        /// Its priority.
        pri: u32,
        /// The highest index of its stack, in words.
        stack: u32,
        /// The files of its modules.
        names: Names,
    },
}
