// The lines of a log.

use crate::parties::Party;
use crate::states::State;
use crate::texts::{contains, leading_number, next_field, split_last, up_to, without_blanks};
use module_text::{after_word, number};

/// The first line of a log.
#[derive(Clone, Copy)]
pub struct Head {
    /// The last step that the log is asked for.
    pub last: u64,
    /// What the machine has.
    pub machine: LoggedMachine,
}

/// What a machine has whose log it is.
#[derive(Clone, Copy, PartialEq, Eq)]
pub enum LoggedMachine {
    /// No kernel.
    Bare,
    /// A kernel, with a tick of the clock every so many steps.
    Kernel(u64),
}

/// A line after the first one.
#[derive(Drop)]
pub enum LogLine<'a> {
    /// A task before the first step.
    Task(TaskLine<'a>),
    /// The heads of the columns.
    Columns,
    /// What happened in a step.
    Event(Event<'a>),
    /// Why the machine has stopped.
    End(&'a [u8]),
}

/// A task before the first step.
#[derive(Drop)]
pub struct TaskLine<'a> {
    /// Its number.
    pub number: u64,
    /// The name of its program, or nothing.
    pub name: &'a [u8],
    /// Its priority.
    pub priority: u64,
    /// Its state.
    pub state: State,
}

/// What happened in a step.
#[derive(Drop)]
pub struct Event<'a> {
    /// The step.
    pub step: u64,
    /// The tick after it.
    pub tick: u64,
    /// Who ran, if somebody did.
    pub task: Option<Party>,
    /// What kind of thing happened.
    pub kind: Kind,
    /// The words for it.
    pub words: &'a [u8],
}

/// The kinds of what happens.
#[derive(Clone, Copy, PartialEq, Eq)]
pub enum Kind {
    /// A call of the kernel.
    Call,
    /// A call or a request that was refused.
    Refused,
    /// A packet is sent.
    Send,
    /// A packet goes back to who sent it.
    Return,
    /// A task takes a packet.
    Take,
    /// A packet is taken back.
    Dequeue,
    /// Who goes on.
    Run,
    /// Bytes that are written.
    Console,
    /// A key comes in.
    Key,
    /// A fault.
    Fault,
    /// A task ends.
    Die,
    /// An instruction, a word that it writes, or a tick. The picture does not show these.
    Other,
}

/// What the first line of a log says; `None` exactly where the line is none.
pub fn head_of(line: &[u8]) -> Option<Head> {
    let (_, steps) = split_last(b": steps ", line)?;
    let (_, rest) = leading_number(steps)?;
    let (last, rest) = leading_number(after_word(b" to ", rest)?)?;
    let machine = machine_of(rest)?;
    Some(Head { last, machine })
}

// What the end of the first line says of the machine.
fn machine_of(words: &[u8]) -> Option<LoggedMachine> {
    if words == b", a bare machine".as_slice() {
        return Some(LoggedMachine::Bare);
    }
    let (period, rest) = leading_number(after_word(b", a tick every ", words)?)?;
    (rest == b" steps".as_slice()).then_some(LoggedMachine::Kernel(period))
}

/// What a line after the first one says; `None` exactly where it is no line of a log.
pub fn log_line(line: &[u8]) -> Option<LogLine<'_>> {
    if let Some(rest) = after_word(b"task ", line) {
        return Some(LogLine::Task(task_line(rest)?));
    }
    if line.starts_with(b"the machine stopped after ") {
        return Some(LogLine::End(line));
    }
    if line.starts_with(b"  step  tick task ") {
        return Some(LogLine::Columns);
    }
    Some(LogLine::Event(event_of(line)?))
}

// The task that a line is about, by what comes after `task `.
fn task_line(rest: &[u8]) -> Option<TaskLine<'_>> {
    let (number, rest) = leading_number(rest)?;
    let (before, after) = split_last(b", priority ", rest)?;
    let (priority, state) = leading_number(after)?;
    let name = after_word(b", ", before).unwrap_or(before);
    Some(TaskLine {
        number,
        name: up_to(b" ", name),
        priority,
        state: state_of(state),
    })
}

// The state that words say.
fn state_of(words: &[u8]) -> State {
    if contains(b" held", words) {
        State::Held
    } else if contains(b" runs", words) {
        State::Runs
    } else if contains(b" waits", words) {
        State::Waits
    } else if contains(b" dead", words) {
        State::Dead
    } else {
        State::Ready
    }
}

// What a line says of a step: the step, the tick, the task, its PC, the kind and the words.
fn event_of(line: &[u8]) -> Option<Event<'_>> {
    let (step, rest) = next_field(line)?;
    let (tick, rest) = next_field(rest)?;
    let (task, rest) = next_field(rest)?;
    let (_, rest) = next_field(rest)?;
    let (kind, rest) = next_field(rest)?;
    Some(Event {
        step: number(step)?,
        tick: number(tick)?,
        task: number(task).map(Party::Task),
        kind: kind_named(kind)?,
        words: without_blanks(rest),
    })
}

// The kind that a word is, if it is one.
fn kind_named(word: &[u8]) -> Option<Kind> {
    KINDS
        .iter()
        .find(|(name, _)| *name == word)
        .map(|(_, kind)| *kind)
}

/// The words for the kinds.
const KINDS: [(&[u8], Kind); 14] = [
    (b"call", Kind::Call),
    (b"refused", Kind::Refused),
    (b"send", Kind::Send),
    (b"return", Kind::Return),
    (b"take", Kind::Take),
    (b"dequeue", Kind::Dequeue),
    (b"run", Kind::Run),
    (b"console", Kind::Console),
    (b"key", Kind::Key),
    (b"fault", Kind::Fault),
    (b"die", Kind::Die),
    (b"step", Kind::Other),
    (b"write", Kind::Other),
    (b"tick", Kind::Other),
];
