// The first words of lines.

use crate::parts::Part;

/// The first word of a line.
#[derive(Clone, Copy, PartialEq, Eq)]
pub enum LineWord {
    /// The version of a machine.
    Tripos,
    /// The size of its store.
    Store,
    /// It has no kernel.
    Bare,
    /// The period of its clock.
    Tick,
    /// It has the residents.
    Resident,
    /// They report faults.
    Debug,
    /// The colon of program bytes.
    Colon,
    /// A file begins.
    File,
    /// A task.
    Task,
    /// A text that is typed.
    At,
    /// A key that is pressed.
    Key,
    /// The most steps.
    Go,
    /// The terms of a ring.
    Ring,
    /// What the link to the right does.
    Link,
    /// What the link to the left does.
    Acks,
    /// The left machine comes next.
    Left,
    /// The right machine comes next.
    Right,
    /// Steps forward.
    Step,
    /// Steps back.
    Back,
    /// On to a breakpoint.
    Continue,
    /// A breakpoint.
    Break,
    /// No breakpoint any more.
    Unbreak,
    /// The registers.
    Registers,
    /// Words of the store.
    Words,
    /// Instructions.
    Instructions,
    /// The tasks.
    Tasks,
    /// A queue.
    Queue,
    /// The blocks.
    Blocks,
}

/// All first words.
const ALL: [LineWord; 28] = [
    LineWord::Tripos,
    LineWord::Store,
    LineWord::Bare,
    LineWord::Tick,
    LineWord::Resident,
    LineWord::Debug,
    LineWord::Colon,
    LineWord::File,
    LineWord::Task,
    LineWord::At,
    LineWord::Key,
    LineWord::Go,
    LineWord::Ring,
    LineWord::Link,
    LineWord::Acks,
    LineWord::Left,
    LineWord::Right,
    LineWord::Step,
    LineWord::Back,
    LineWord::Continue,
    LineWord::Break,
    LineWord::Unbreak,
    LineWord::Registers,
    LineWord::Words,
    LineWord::Instructions,
    LineWord::Tasks,
    LineWord::Queue,
    LineWord::Blocks,
];

/// The words of the debugger's lines.
pub const DEBUGGER_WORDS: &[LineWord] = &[
    LineWord::Step,
    LineWord::Back,
    LineWord::Continue,
    LineWord::Break,
    LineWord::Unbreak,
    LineWord::Registers,
    LineWord::Words,
    LineWord::Instructions,
    LineWord::Tasks,
    LineWord::Queue,
    LineWord::Blocks,
];

/// The first word of this name, if there is one.
pub fn word_named(name: &[u8]) -> Option<LineWord> {
    word_among(&ALL, name)
}

/// The word of this name among these, if it is one.
pub fn word_among(words: &[LineWord], name: &[u8]) -> Option<LineWord> {
    words.iter().copied().find(|word| word.name() == name)
}

impl LineWord {
    /// The word itself.
    pub fn name(self) -> &'static [u8] {
        match self {
            LineWord::Tripos => b"TRIPOS",
            LineWord::Store => b"STORE",
            LineWord::Bare => b"BARE",
            LineWord::Tick => b"TICK",
            LineWord::Resident => b"RESIDENT",
            LineWord::Debug => b"DEBUG",
            LineWord::Colon => b":",
            LineWord::File => b"FILE",
            LineWord::Task => b"TASK",
            LineWord::At => b"AT",
            LineWord::Key => b"KEY",
            LineWord::Go => b"GO",
            LineWord::Ring => b"RING",
            LineWord::Link => b"LINK",
            LineWord::Acks => b"ACKS",
            LineWord::Left => b"LEFT",
            LineWord::Right => b"RIGHT",
            LineWord::Step => b"STEP",
            LineWord::Back => b"BACK",
            LineWord::Continue => b"CONT",
            LineWord::Break => b"BP",
            LineWord::Unbreak => b"UNBP",
            LineWord::Registers => b"REGS",
            LineWord::Words => b"MEM",
            LineWord::Instructions => b"DIS",
            LineWord::Tasks => b"TASKS",
            LineWord::Queue => b"QUEUE",
            LineWord::Blocks => b"BLOCKS",
        }
    }

    /// The form of its line, as it is shown.
    pub fn shape(self) -> &'static [u8] {
        match self {
            LineWord::Tripos => b"TRIPOS 1 or TRIPOS 2",
            LineWord::Store => b"STORE n",
            LineWord::Tick => b"TICK n",
            LineWord::Colon => b":hex",
            LineWord::File => b"FILE name",
            LineWord::Task => b"TASK id pri stack name",
            LineWord::At => b"AT step :text",
            LineWord::Key => b"KEY step hh",
            LineWord::Go => b"GO n",
            LineWord::Ring => b"RING r w",
            LineWord::Link => b"LINK :letters",
            LineWord::Acks => b"ACKS :letters",
            LineWord::Step => b"STEP n",
            LineWord::Back => b"BACK n",
            LineWord::Break => b"BP a",
            LineWord::Unbreak => b"UNBP a",
            LineWord::Words => b"MEM a n",
            LineWord::Instructions => b"DIS a n",
            LineWord::Queue => b"QUEUE id",
            _ => self.name(),
        }
    }

    /// The parts of its line after the word.
    pub fn parts(self) -> &'static [Part] {
        match self {
            LineWord::Tripos => &[Part::Version],
            LineWord::Store => &[Part::StoreSize],
            LineWord::Tick => &[Part::Period],
            LineWord::File => &[Part::Name],
            LineWord::Task => &[Part::Id, Part::Priority, Part::Stack, Part::Name],
            LineWord::At => &[Part::Moment, Part::Text],
            LineWord::Key => &[Part::Moment, Part::Key],
            LineWord::Go => &[Part::Steps],
            LineWord::Ring => &[Part::Rounds, Part::Wait],
            LineWord::Link | LineWord::Acks => &[Part::Letters],
            LineWord::Step | LineWord::Back => &[Part::Count],
            LineWord::Break | LineWord::Unbreak => &[Part::Byte],
            LineWord::Words | LineWord::Instructions => &[Part::Address, Part::Lines],
            LineWord::Queue => &[Part::Queue],
            _ => &[],
        }
    }
}
