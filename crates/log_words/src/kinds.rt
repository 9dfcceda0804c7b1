// The kinds of lines, and which lines are wanted.
ghost use Rattle.std.specs.Prelude.{◌≡◌, ◌↔◌, filter, IfOk, IsTrue};
ghost use Rattle.std.specs.List.{list_any};
ghost use Rattle.session_text.specs.Statements.{fields};
ghost use Rattle.log_words.specs.Kinds.{HasKind, HasLine, is_about, is_kind_wanted, is_named, is_packets, is_quiet, is_task, kind_word, wanted_kinds};

use run_names::Party;
use std::alloc::{AllocError, Global};

/// What a line says.
#[derive(Clone, Copy, Debug, PartialEq, Eq)]
pub enum Kind {
    /// What a call answers.
    Call,
    /// That a call, or a request, is refused.
    Refused,
    /// That a packet is sent.
    Send,
    /// That a packet comes back.
    Return,
    /// That a task takes a packet.
    Take,
    /// That a packet is taken back from a queue.
    Dequeue,
    /// Which task goes on.
    Run,
    /// What is written to the console.
    Console,
    /// A key that comes in.
    Key,
    /// A fault.
    Fault,
    /// That a task dies, or a bare machine stops, since PC is 0.
    Die,
    /// The instruction.
    Step,
    /// A word that is written.
    Write,
    /// A tick of the clock.
    Tick,
    /// Why the machine has stopped.
    End,
}

/// All kinds.
const KINDS: [Kind; 15] = [
    Kind::Call,
    Kind::Refused,
    Kind::Send,
    Kind::Return,
    Kind::Take,
    Kind::Dequeue,
    Kind::Run,
    Kind::Console,
    Kind::Key,
    Kind::Fault,
    Kind::Die,
    Kind::Step,
    Kind::Write,
    Kind::Tick,
    Kind::End,
];

impl Kind {
    /// Its word.
    pub fn word(self) -> &'static [u8]
        ensures { result.now ≡ kind_word self }
    {
        match self {
            Kind::Call => b"call",
            Kind::Refused => b"refused",
            Kind::Send => b"send",
            Kind::Return => b"return",
            Kind::Take => b"take",
            Kind::Dequeue => b"dequeue",
            Kind::Run => b"run",
            Kind::Console => b"console",
            Kind::Key => b"key",
            Kind::Fault => b"fault",
            Kind::Die => b"die",
            Kind::Step => b"step",
            Kind::Write => b"write",
            Kind::Tick => b"tick",
            Kind::End => b"end",
        }
    }
}

/// Whether lines of a kind are wanted: by `-`, all but steps, writes and ticks; else by words between blanks, of which one is the kind's,
/// or `packet`, where it is one of packets, or `all`.
pub fn is_kind_wanted(words: &[u8], kind: Kind) -> bool
    ensures { result ≡ is_kind_wanted words.now kind }
{
    if words == b"-".as_slice() {
        return !is_quiet(kind);
    }
    is_any_named(words, kind)
}

// Whether one of the words between blanks names the kind.
fn is_any_named(words: &[u8], kind: Kind) -> bool
    ensures { result ≡ list_any (λ word. is_named word kind) (fields words.now) }
{
    words.split(|c| *c == b' ').any(|word| is_named(word, kind))
}

// Whether lines of the kind are wanted only where they are asked for.
fn is_quiet(kind: Kind) -> bool
    ensures { result ≡ is_quiet kind }
{
    matches!(kind, Kind::Step | Kind::Write | Kind::Tick)
}

// Whether a word names the kind.
fn is_named(word: &[u8], kind: Kind) -> bool
    ensures { result ≡ is_named word.now kind }
{
    word == b"all".as_slice()
        || word == kind.word()
        || word == b"packet".as_slice() && is_packets(kind)
}

// Whether lines of the kind are of packets.
fn is_packets(kind: Kind) -> bool
    ensures { result ≡ is_packets kind }
{
    matches!(kind, Kind::Send | Kind::Return | Kind::Take | Kind::Dequeue)
}

/// Which lines are wanted.
#[derive(Drop)]
pub struct Wanted {
    /// The number of the task that they have to be about; `None` where they may be about any.
    pub task: Option<u32>,
    /// Their kinds.
    kinds: Vec<Kind>,
}

impl Wanted {
    /// Lines about this task, if one is named, of the kinds that these words name.
    pub fn new(alloc: Global, task: Option<u32>, words: &[u8]) -> Result<Wanted, AllocError>
        ensures task { IfOk result (λ w. w.task ≡ task) }
        ensures kinds { IfOk result (λ w. w.kinds.items ≡ wanted_kinds words.now) }
    {
        let kinds = wanted_of(alloc, &KINDS, words)?;
        Ok(Wanted { task, kinds })
    }

    /// Whether lines of the kind are wanted.
    pub fn has_kind(&self, kind: Kind) -> bool
        ensures { IsTrue result ↔ HasKind self.now kind }
    {
        self.kinds.contains(&kind)
    }

    /// Whether a line of the kind is wanted, in a step in which this task runs, that is about these besides.
    pub fn has_line(&self, kind: Kind, task: u32, about: &[Party]) -> bool
        ensures { IsTrue result ↔ HasLine self.now kind task about.now }
    {
        self.has_kind(kind) && is_about(self.task, task, about)
    }
}

// Those of the kinds of which lines are wanted.
fn wanted_of(alloc: Global, kinds: &[Kind], words: &[u8]) -> Result<Vec<Kind>, AllocError>
    ensures { IfOk result (λ v. v.items ≡ filter (is_kind_wanted words.now) kinds.now) }
{
    let mut wanted = Vec::new(alloc);
    for kind in kinds {
        if is_kind_wanted(words, *kind) {
            wanted.push(*kind)?;
        }
    }
    Ok(wanted)
}

/// Whether a line is about the task that is asked for, or any is: it runs in the step, or is one of these.
pub fn is_about(asked: Option<u32>, task: u32, about: &[Party]) -> bool
    ensures { result ≡ is_about asked task about.now }
{
    match asked {
        Some(id) => id == task || has_task(about, id),
        None => true,
    }
}

// Whether one of these is the task with this number.
fn has_task(parties: &[Party], id: u32) -> bool
    ensures { result ≡ list_any (is_task id) parties.now }
{
    parties.iter().any(|party| is_task(*party, id))
}

// Whether somebody is the task with this number.
fn is_task(party: Party, id: u32) -> bool
    ensures { result ≡ is_task id party }
{
    match party {
        Party::Task(task) => task == id,
        _ => false,
    }
}
