// The lines of a ring.

use crate::boots::boot;
use crate::bytes::has_bytes;
use crate::forms::read_form;
use crate::line_words::LineWord;
use crate::lines::first_word;
use crate::other_lines::{Allowed, other_line};
use crate::places::Surroundings;
use crate::reading::{CUT_OFF, NO_FORM, Reading};
use crate::sessions::{SessionEnd, read_session};
use std::alloc::AllocError;
use tool_texts::Said::Bytes;

/// Reads a ring: its terms, the two links, and a session each for the left and the right machine. What the boot refuses is looked for where nothing
/// else is wrong.
pub fn read_ring(reading: &mut Reading) -> Result<(), AllocError> {
    if !read_head(reading)? {
        return Ok(());
    }
    let left = read_session(reading, 5, Surroundings::Left)?;
    if !read_line(reading, left.next, LineWord::Right, &[LineWord::Right])? {
        return Ok(());
    }
    let right = read_session(reading, left.next.saturating_add(1), Surroundings::Right)?;
    read_end(reading, &left, &right)
}

// The four lines before the left machine. Answers whether the text goes so far.
fn read_head(reading: &mut Reading) -> Result<bool, AllocError> {
    Ok(
        read_line(reading, 1, LineWord::Ring, &[LineWord::Ring])?
            && read_line(reading, 2, LineWord::Link, &[LineWord::Link])?
            && read_line(reading, 3, LineWord::Acks, &[LineWord::Acks])?
            && read_line(reading, 4, LineWord::Left, &[LineWord::Left])?,
    )
}

// Line n is to be one of this word alone. Answers whether the text goes so far.
fn read_line(
    reading: &mut Reading,
    n: usize,
    word: LineWord,
    words: &'static [LineWord],
) -> Result<bool, AllocError> {
    if n > reading.lines.count() {
        if !is_cut_off(reading) {
            let end = reading.lines.after_last();
            reading.wrong(
                end,
                1,
                CUT_OFF,
                &[
                    Bytes(b"the text ends before its line "),
                    Bytes(word.shape()),
                ],
            )?;
        }
        return Ok(false);
    }
    let line = reading.lines.line(n);
    if !has_bytes(reading, n, line)? {
        return Ok(true);
    }
    if first_word(line) == word.name() {
        read_form(reading, n, line, word, 0)?;
        return Ok(true);
    }
    let allowed = Allowed {
        words,
        is_in_file: false,
    };
    other_line(reading, n, line, allowed, None)?;
    Ok(true)
}

// Whether the last error is that the text ends too early.
fn is_cut_off(reading: &Reading) -> bool {
    match reading.findings.as_slice().last() {
        Some(finding) => finding.code == CUT_OFF,
        None => false,
    }
}

// What is after the right machine, and the boots.
fn read_end<'a>(
    reading: &mut Reading<'a>,
    left: &SessionEnd<'a>,
    right: &SessionEnd<'a>,
) -> Result<(), AllocError> {
    if right.next <= reading.lines.count() {
        reading.wrong(
            right.next,
            1,
            NO_FORM,
            &[Bytes(b"a ring ends with the GO line of the right machine")],
        )?;
    }
    if !reading.findings.is_empty() {
        return Ok(());
    }
    boot(reading, &left.draft)?;
    boot(reading, &right.draft)
}
