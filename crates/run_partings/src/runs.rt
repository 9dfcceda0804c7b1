// What is compared.

use crate::sides::Both;
use module_text::{after_word, split_line};
use run_pictures::texts::up_to;
use session_text::Session;
use std::alloc::AllocError;
use tool_texts::Said::Bytes;
use tool_texts::push_sentence;

/// How two runs are compared, and shown.
#[derive(Clone, Copy)]
pub struct Form {
    /// How many lines of the logs are shown before the runs part.
    pub before: usize,
    /// How many from there on.
    pub lines: usize,
    /// How many columns the table has.
    pub width: usize,
    /// The periods of the clocks, where they alone are other ones in one session.
    pub ticks: Option<Both<u64>>,
    /// Up to which step there are logs; none where they are whole.
    pub up_to: Option<u64>,
}

/// A run.
#[derive(Clone, Copy)]
pub struct Run<'a> {
    /// What its session is called.
    pub name: &'a [u8],
    /// Its session.
    pub session: &'a Session,
    /// Its state at the end, in words.
    pub state: &'a [u8],
    /// What it has written to the console.
    pub console: &'a [u8],
    /// What happened in its steps, in words.
    pub log: &'a [u8],
    /// Lines of assembly: a byte address, a blank and its place on a line.
    pub places: &'a [u8],
}

/// Adds a byte address of a run: its line of assembly, where there is one.
pub fn push_place(text: &mut Vec<u8>, run: &Run, pc: &[u8]) -> Result<(), AllocError> {
    let place = place_at(run.places, pc).unwrap_or(pc);
    push_sentence(text, &[Bytes(place)])
}

// The place of a byte address, up to its first comma; `None` where there is none.
fn place_at<'a>(places: &'a [u8], pc: &[u8]) -> Option<&'a [u8]> {
    let mut rest = places;
    for _ in 0..places.len() {
        let (line, others) = split_line(rest)?;
        if let Some(place) = place_in(line, pc) {
            return Some(up_to(b",", place));
        }
        rest = others;
    }
    None
}

// What a line has after this address and a blank; `None` where it is of another one.
fn place_in<'a>(line: &'a [u8], pc: &[u8]) -> Option<&'a [u8]> {
    after_word(b" ", after_word(pc, line)?)
}
