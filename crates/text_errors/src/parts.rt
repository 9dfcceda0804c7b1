// The parts of a line after its first word.

use tool_texts::Lent;

/// A part of a line.
#[derive(Clone, Copy)]
pub enum Part {
    /// The version of a machine.
    Version,
    /// The number of words of a store.
    StoreSize,
    /// The period of the clock.
    Period,
    /// The number of a task.
    Id,
    /// The priority of a task.
    Priority,
    /// The highest index of a stack.
    Stack,
    /// The step at which something is typed.
    Moment,
    /// The most steps of a run.
    Steps,
    /// The rounds of a ring.
    Rounds,
    /// After how many rounds something is sent again.
    Wait,
    /// How many steps the debugger takes.
    Count,
    /// A byte address.
    Byte,
    /// The address of a word.
    Address,
    /// How many words or instructions are shown.
    Lines,
    /// The name of a file.
    Name,
    /// A key in hex.
    Key,
    /// The number of a queue.
    Queue,
    /// The rest of a line, a text after a colon.
    Text,
    /// The rest of a line, the letters of a link after a colon.
    Letters,
}

/// What is found at the place of a part.
#[derive(Drop)]
pub struct Piece<'a> {
    /// Its first column, from 1.
    pub column: usize,
    /// Its bytes.
    pub text: Lent<'a>,
}

impl Part {
    /// What it is, in words.
    pub fn called(self) -> &'static [u8] {
        match self {
            Part::Version => b"the version, 1 or 2,",
            Part::StoreSize => b"the number of words",
            Part::Period => b"the length of a tick in steps",
            Part::Id => b"the task's number",
            Part::Priority => b"the priority",
            Part::Stack => b"the highest index of the stack",
            Part::Moment => b"the step",
            Part::Steps | Part::Count => b"the number of steps",
            Part::Rounds => b"the number of rounds",
            Part::Wait => b"the wait in rounds",
            Part::Byte => b"a byte address",
            Part::Address => b"an address",
            Part::Lines => b"the count",
            Part::Name => b"a file's name",
            Part::Key => b"a key, two hex digits,",
            Part::Queue => b"a queue's number",
            Part::Text => b"the text after a colon",
            Part::Letters => b"the letters after a colon",
        }
    }

    /// The least number that it may be, and the most.
    pub fn range(self) -> (u64, u64) {
        match self {
            Part::StoreSize => (1024, 4_194_304),
            Part::Period | Part::Wait => (1, 1_000_000),
            Part::Id => (5, 63),
            Part::Priority => (1, 10_000),
            Part::Stack => (20, 100_000),
            Part::Moment | Part::Steps | Part::Rounds => (0, 4_000_000_000),
            Part::Lines => (0, 4096),
            _ => (0, 4_294_967_295),
        }
    }

    /// Whether it is all that is left of its line, with its blanks.
    pub fn is_rest(self) -> bool {
        matches!(self, Part::Text | Part::Letters)
    }
}
