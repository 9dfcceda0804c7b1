// The lines of a log that are compared.

use module_text::{number, split_line};
use run_pictures::texts::{next_field, without_blanks};
use std::alloc::{AllocError, Global};

/// What a line says of a step.
#[derive(Clone, Copy)]
pub struct Line<'a> {
    /// The step.
    pub step: u64,
    /// The tick after it; 0 where there is no clock.
    pub tick: u64,
    /// The number of the task, or `-`.
    pub task: &'a [u8],
    /// The byte address of the instruction, or `-`.
    pub pc: &'a [u8],
    /// The word for what kind of thing happened.
    pub kind: &'a [u8],
    /// The words for it.
    pub words: &'a [u8],
}

impl Line<'_> {
    /// Whether it tells an instruction.
    pub fn is_step(&self) -> bool {
        self.kind == b"step".as_slice()
    }

    /// Whether it tells a tick of the clock or a key, which come from outside.
    pub fn is_from_outside(&self) -> bool {
        matches!(self.kind, b"tick" | b"key")
    }

    /// Whether it tells how a call or an instruction of a task ended.
    pub fn is_of_task(&self) -> bool {
        matches!(self.kind, b"call" | b"refused" | b"fault" | b"die")
    }

    /// Whether a task is named.
    pub fn has_task(&self) -> bool {
        self.task != b"-".as_slice()
    }
}

/// The lines of a log that are compared: all after the heads of its columns, but for those of words that are written, which instructions and
/// calls tell too.
pub fn lines_of(alloc: Global, log: &[u8]) -> Result<Vec<Line<'_>>, AllocError> {
    let mut lines = Vec::new(alloc);
    let mut is_begun = false;
    let mut rest = log;
    for _ in 0..log.len() {
        let Some((text, others)) = split_line(rest) else {
            break;
        };
        if is_begun {
            if let Some(line) = line_of(text) {
                lines.push(line)?;
            }
        } else {
            is_begun = text.starts_with(b"  step  tick task ");
        }
        rest = others;
    }
    Ok(lines)
}

// What a line of a log says; `None` where it is not compared.
fn line_of(text: &[u8]) -> Option<Line<'_>> {
    let (step, rest) = next_field(text)?;
    let (tick, rest) = next_field(rest)?;
    let (task, rest) = next_field(rest)?;
    let (pc, rest) = next_field(rest)?;
    let (kind, rest) = next_field(rest)?;
    if kind == b"write".as_slice() {
        return None;
    }
    Some(Line {
        step: number(step)?,
        tick: number(tick).unwrap_or(0),
        task,
        pc,
        kind,
        words: without_blanks(rest),
    })
}
