// What is wrong in a request.
use session_text::Bytes;
use tool_texts::Lent;

/// What is wrong in a request.
#[derive(Drop)]
pub enum Wrong<'a> {
    /// The input is no bundle.
    NoBundle,
    /// The bundle does not begin with the five words of a request.
    NoRequest,
    /// The steps and the programs of a bare machine are missing.
    NoBareSteps,
    /// The programs of a bare machine are missing after these steps.
    NoPrograms(Lent<'a>),
    /// The steps of a machine with a kernel are missing, whose kind has this name.
    NoSteps(Lent<'a>),
    /// There is no such version.
    NoVersion(Lent<'a>),
    /// This is no size of a store, which has so many words at most.
    StoreSize {
        most: u64,
        word: Lent<'a>,
    },
    /// This is no number of steps.
    Steps(Lent<'a>),
    /// This is no period of the clock.
    Period(Lent<'a>),
    /// The file could not be read.
    NoFile(Lent<'a>),
    /// A program is wrong, as this text says.
    Program(Bytes),
    /// The file is no module.
    NoModule {
        path: Lent<'a>,
        line: u32,
        code: u32,
    },
    /// A program of a bare machine has so many hunks.
    HunkCount {
        path: Lent<'a>,
        count: usize,
    },
    /// The program does not fit into a store of so many words.
    NoRoom {
        path: Lent<'a>,
        store: u32,
    },
    /// The text that was made is none of a session.
    NotRead {
        line: u32,
        code: u32,
    },
    /// There is no such item.
    NoItem(Lent<'a>),
    /// A task's words are missing.
    TaskWords,
    /// This is no number of a task, which is at most this.
    TaskNumber {
        last: u64,
        word: Lent<'a>,
    },
    /// This is no priority.
    Priority(Lent<'a>),
    /// This is no highest index of a stack.
    Stack(Lent<'a>),
    /// The task of an earlier item has the number.
    NumberTaken {
        item: usize,
        number: u32,
    },
    /// A task of the system has the priority.
    PriorityReserved(u32),
    /// The task of an earlier item has the priority.
    PriorityTaken {
        item: usize,
        priority: u32,
    },
    /// This is no program of a task.
    TaskProgram(Lent<'a>),
    /// A task has so many files.
    TaskFiles(usize),
    /// A program without a shell.
    NoShell,
    /// A program's file is missing.
    ProgramWords,
    /// This is no name of a program.
    ProgramName(Lent<'a>),
    /// Files of this name come from other paths in an earlier item.
    NameTaken {
        name: Lent<'a>,
        known: Bytes,
        item: usize,
        paths: Bytes,
    },
    /// A file of an earlier item has the name.
    FileTaken {
        item: usize,
        name: Lent<'a>,
    },
    /// There are as many files as a machine has at most, before this one.
    FileCount(Lent<'a>),
    /// A file's words are missing.
    FileWords,
    /// The words of a typed text are missing.
    TypeWords,
    /// A key's words are missing.
    KeyWords,
    /// This is no name of a file.
    FileName(Lent<'a>),
    /// A line of a file has a byte that no session may have.
    FileByte {
        path: Lent<'a>,
        line: u64,
        column: u64,
        byte: u8,
    },
    /// This is no step.
    Step(Lent<'a>),
    /// A typed text has a byte that no session may have.
    TypedByte {
        column: usize,
        byte: u8,
    },
    /// These are no two hex digits.
    KeyDigits(Lent<'a>),
}
