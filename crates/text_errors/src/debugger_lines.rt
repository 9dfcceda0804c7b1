// The debugger's lines after a session.

use crate::bytes::has_bytes;
use crate::forms::read_form;
use crate::line_words::{DEBUGGER_WORDS, LineWord, word_among};
use crate::lines::first_word;
use crate::other_lines::{Allowed, other_line};
use crate::reading::{NO_FORM, Reading};
use std::alloc::{AllocError, Global};
use tool_texts::Said::Bytes;

/// Reads all lines from this one on as those of the debugger.
pub fn read_debugger_lines(reading: &mut Reading, first: usize) -> Result<(), AllocError> {
    for n in first..reading.lines.after_last() {
        read_line(reading, n)?;
    }
    Ok(())
}

fn read_line(reading: &mut Reading, n: usize) -> Result<(), AllocError> {
    let line = reading.lines.line(n);
    if !has_bytes(reading, n, line)? {
        return Ok(());
    }
    if line.is_empty() {
        return reading.wrong(n, 1, NO_FORM, &[Bytes(b"no line of the debugger is empty")]);
    }
    let name = first_word(line);
    if let Some(word) = word_among(DEBUGGER_WORDS, name) {
        read_form(reading, n, line, word, 0)?;
        return Ok(());
    }
    let allowed = Allowed {
        words: DEBUGGER_WORDS,
        is_in_file: false,
    };
    let why = reason(reading.alloc, name)?;
    other_line(reading, n, line, allowed, why)?;
    Ok(())
}

// Why a line with this first word may not be there, where that is known.
fn reason(alloc: Global, name: &[u8]) -> Result<Option<Vec<u8>>, AllocError> {
    if name != LineWord::Go.name() {
        return Ok(None);
    }
    let words = Vec::from_slice(
        alloc,
        b"the session ended with its GO line before; the lines after it are the debugger's",
    )?;
    Ok(Some(words))
}

/// Says that lines are after a session, the first of which is this one.
pub fn lines_after_session(reading: &mut Reading, n: usize) -> Result<(), AllocError> {
    let name = first_word(reading.lines.line(n));
    if word_among(DEBUGGER_WORDS, name).is_some() {
        return reading.wrong(
            n,
            1,
            NO_FORM,
            &[Bytes(
                b"a session ends with its GO line; the lines of the debugger after it are for ./tripos debug",
            )],
        );
    }
    let more = reading.lines.after_last().saturating_sub(n);
    if more == 1 {
        return reading.wrong(
            n,
            1,
            NO_FORM,
            &[Bytes(b"a session ends with its GO line, and after it is a line more")],
        );
    }
    reading.wrong(
        n,
        1,
        NO_FORM,
        &[
            Bytes(b"a session ends with its GO line, and after it are "),
            tool_texts::Said::Number(more as u64),
            Bytes(b" lines more"),
        ],
    )
}
