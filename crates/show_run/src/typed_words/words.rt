// The words that there are.
ghost use Rattle.std.specs.Prelude.{◌≡◌};
ghost use Rattle.show_run.specs.TypedWords.Words.{begins_line, needs_more, word_named};

/// What a word asks for.
#[derive(Clone, Copy)]
pub enum Word {
    /// `s`: steps.
    Step,
    /// `back`: fewer steps.
    Back,
    /// `n`: a step, or on until the function that is called has returned.
    Over,
    /// `fin`: on until the function that runs has returned.
    Finish,
    /// `c`: on to a breakpoint.
    Continue,
    /// `b`: a breakpoint.
    Break,
    /// `d`: no breakpoint.
    Unbreak,
    /// `w`: on to the next step that writes a word.
    NextWrite,
    /// `who`: the last step that wrote a word.
    LastWrite,
    /// `r`: the registers.
    Registers,
    /// `x`: words of the store.
    Words,
    /// `l`: the listing.
    List,
    /// `t`: the tasks.
    Tasks,
    /// `q`: a queue.
    Queue,
    /// `k`: the blocks.
    Blocks,
    /// `bt`: the functions that have called one another.
    Backtrace,
    /// `h`: all words.
    Help,
    /// `quit`: the end.
    Quit,
    /// The first word of a line of the debugger.
    Line,
    /// There is no such word.
    Unknown,
}

/// What a word asks for.
pub fn word_named(name: &[u8]) -> Word
    ensures { result ≡ word_named name.now }
{
    if name == b"s".as_slice() {
        Word::Step
    } else if name == b"back".as_slice() {
        Word::Back
    } else if name == b"n".as_slice() {
        Word::Over
    } else if name == b"fin".as_slice() {
        Word::Finish
    } else if name == b"c".as_slice() {
        Word::Continue
    } else if name == b"b".as_slice() {
        Word::Break
    } else if name == b"d".as_slice() {
        Word::Unbreak
    } else if name == b"w".as_slice() {
        Word::NextWrite
    } else if name == b"who".as_slice() {
        Word::LastWrite
    } else if name == b"r".as_slice() {
        Word::Registers
    } else if name == b"x".as_slice() {
        Word::Words
    } else if name == b"l".as_slice() {
        Word::List
    } else if name == b"t".as_slice() {
        Word::Tasks
    } else if name == b"q".as_slice() {
        Word::Queue
    } else if name == b"k".as_slice() {
        Word::Blocks
    } else if name == b"bt".as_slice() {
        Word::Backtrace
    } else if name == b"h".as_slice() {
        Word::Help
    } else if name == b"quit".as_slice() {
        Word::Quit
    } else if begins_line(name) {
        Word::Line
    } else {
        Word::Unknown
    }
}

// Whether a word is the first of a line of the debugger.
fn begins_line(name: &[u8]) -> bool
    ensures { result ≡ begins_line name.now }
{
    name == b"STEP".as_slice()
        || name == b"BACK".as_slice()
        || name == b"CONT".as_slice()
        || name == b"BP".as_slice()
        || name == b"UNBP".as_slice()
        || name == b"REGS".as_slice()
        || name == b"MEM".as_slice()
        || name == b"TASKS".as_slice()
        || name == b"QUEUE".as_slice()
        || name == b"BLOCKS".as_slice()
        || name == b"DIS".as_slice()
}

/// Whether a word needs one after it.
pub fn needs_more(word: Word) -> bool
    ensures { result ≡ needs_more word }
{
    matches!(
        word,
        Word::Break | Word::Unbreak | Word::NextWrite | Word::LastWrite | Word::Words | Word::Queue
    )
}
