// What is asked of a comparison.

use crate::runs::{Form, Run};
use crate::sides::Both;
use crate::tables::{LEAST_WIDTH, MOST_WIDTH};
use module_text::number;
use session_text::Session;
use tool_bundles::Entry;

/// The most lines of each log that are shown.
const MOST_LINES: u64 = 500;

/// The files of a run.
#[derive(Clone, Copy)]
pub struct RunFiles<'a> {
    /// What its session is called.
    pub name: &'a [u8],
    /// The text of its session.
    pub session: &'a [u8],
    /// Its state at the end, in words.
    state: &'a [u8],
    /// What it has written to the console.
    console: &'a [u8],
    /// What happened in its steps, in words.
    log: &'a [u8],
    /// Where the lines of its programs are.
    places: &'a [u8],
}

impl<'a> RunFiles<'a> {
    /// The run, whose session is this one.
    pub fn run(self, session: &'a Session) -> Run<'a> {
        Run {
            name: self.name,
            session,
            state: self.state,
            console: self.console,
            log: self.log,
            places: self.places,
        }
    }
}

/// What is asked for.
#[derive(Clone, Copy)]
pub struct Request<'a> {
    /// How both runs are compared, and shown.
    pub form: Form,
    /// The files of both.
    pub files: Both<RunFiles<'a>>,
}

/// What the words of a bundle ask for: how many lines are shown before the runs part and from there on, at most 500 together; how many columns the
/// table has, from 100 to 400; up to which step there are logs, or `-`; the periods of both clocks, or `-` twice; and then, for each run, five files:
/// its session, its state, what it has written, its log, and where the lines of its programs are. `None` where they are no such request.
pub fn request_of<'a>(entries: &[Entry<'a>]) -> Option<Request<'a>> {
    let [before, lines, width, up_to, first, second, files @ ..] = entries else {
        return None;
    };
    let [session, state, console, log, places, others @ ..] = files else {
        return None;
    };
    let a = files_of(session, state, console, log, places)?;
    let [session, state, console, log, places] = others else {
        return None;
    };
    let b = files_of(session, state, console, log, places)?;
    let before = number(before.word.bytes())?;
    let lines = number(lines.word.bytes())?;
    let width = number(width.word.bytes())?;
    let are_lawful = before.saturating_add(lines) <= MOST_LINES
        && (LEAST_WIDTH..=MOST_WIDTH).contains(&(width as usize));
    if !are_lawful {
        return None;
    }
    let form = Form {
        before: before as usize,
        lines: lines as usize,
        width: width as usize,
        ticks: ticks_of(number_or_none(first)?, number_or_none(second)?),
        up_to: number_or_none(up_to)?,
    };
    Some(Request {
        form,
        files: Both { a, b },
    })
}

// The files of a run.
fn files_of<'a>(
    session: &Entry<'a>,
    state: &Entry<'a>,
    console: &Entry<'a>,
    log: &Entry<'a>,
    places: &Entry<'a>,
) -> Option<RunFiles<'a>> {
    Some(RunFiles {
        name: session.word.bytes(),
        session: session.file()?.bytes(),
        state: state.file()?.bytes(),
        console: console.file()?.bytes(),
        log: log.file()?.bytes(),
        places: places.file()?.bytes(),
    })
}

// Both periods, where both are given.
fn ticks_of(a: Option<u64>, b: Option<u64>) -> Option<Both<u64>> {
    Some(Both { a: a?, b: b? })
}

// The number that a word is: none where it is `-`; `None` where it is neither.
fn number_or_none(entry: &Entry) -> Option<Option<u64>> {
    let word = entry.word.bytes();
    if word == b"-".as_slice() {
        return Some(None);
    }
    Some(Some(number(word)?))
}
