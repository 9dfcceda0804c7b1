// Whether the parts of a line have their forms.

use crate::bytes::hex_digits;
use crate::line_words::LineWord;
use crate::numbers::{is_digits, is_hex, is_number, no_number};
use crate::parts::{Part, Piece};
use crate::reading::{NO_FORM, Reading};
use std::alloc::AllocError;
use tool_texts::Said::{Bytes, Number};

/// Whether a piece of line n, whose first word this is, has the form of its part; else that is an error.
pub fn has_form(
    reading: &mut Reading,
    n: usize,
    word: LineWord,
    part: Part,
    piece: &Piece,
) -> Result<bool, AllocError> {
    let text = piece.text.bytes();
    match part {
        Part::Name => Ok(true),
        Part::Version => has_version(reading, n, piece.column, text),
        Part::Key => has_key(reading, n, piece.column, text),
        Part::Text => has_colon(reading, n, piece.column, text, b"the step", b"text"),
        Part::Letters => {
            Ok(
                has_colon(reading, n, piece.column, text, word.name(), b"letters")?
                    && has_letters(reading, n, piece.column, text)?,
            )
        }
        Part::Queue => has_queue(reading, n, piece.column, text),
        _ => has_number(reading, n, part, piece.column, text),
    }
}

fn has_version(
    reading: &mut Reading,
    n: usize,
    column: usize,
    text: &[u8],
) -> Result<bool, AllocError> {
    if let [b'1' | b'2'] = text {
        return Ok(true);
    }
    if let [b'0', .., b'1' | b'2'] = text {
        if text.iter().filter(|c| **c != b'0').count() == 1 {
            reading.wrong(
                n,
                column,
                NO_FORM,
                &[Bytes(b"the version is 1 or 2, with no 0 before it")],
            )?;
            return Ok(false);
        }
    }
    reading.wrong(
        n,
        column,
        NO_FORM,
        &[
            Bytes(b"there are the versions 1 and 2, and not "),
            Bytes(text),
        ],
    )?;
    Ok(false)
}

fn has_key(
    reading: &mut Reading,
    n: usize,
    column: usize,
    text: &[u8],
) -> Result<bool, AllocError> {
    if is_hex(text) {
        if text.len() == 2 {
            return Ok(true);
        }
        let found = if text.len() == 1 {
            Bytes(b"one")
        } else {
            Number(text.len() as u64)
        };
        reading.wrong(
            n,
            column,
            NO_FORM,
            &[Bytes(b"a key is two hex digits, but found "), found],
        )?;
        return Ok(false);
    }
    if let [byte] = text {
        let digits = hex_digits(*byte);
        reading.wrong(
            n,
            column,
            NO_FORM,
            &[
                Bytes(b"a key is two hex digits, and not "),
                Bytes(text),
                Bytes(b"; the key "),
                Bytes(text),
                Bytes(b" is "),
                Bytes(digits.as_slice()),
            ],
        )?;
        return Ok(false);
    }
    reading.wrong(
        n,
        column,
        NO_FORM,
        &[Bytes(b"a key is two hex digits, and not "), Bytes(text)],
    )?;
    Ok(false)
}

// Whether a colon is there, after one thing and before another.
fn has_colon<'t>(
    reading: &mut Reading,
    n: usize,
    column: usize,
    text: &[u8],
    before: &'t [u8],
    after: &'t [u8],
) -> Result<bool, AllocError> {
    if text.starts_with(b":") {
        return Ok(true);
    }
    reading.wrong(
        n,
        column,
        NO_FORM,
        &[
            Bytes(b"after "),
            Bytes(before),
            Bytes(b" comes a colon, and then the "),
            Bytes(after),
        ],
    )?;
    Ok(false)
}

// Whether the letters after the colon are those of a link.
fn has_letters(
    reading: &mut Reading,
    n: usize,
    column: usize,
    text: &[u8],
) -> Result<bool, AllocError> {
    let letters = text.strip_prefix(b":").unwrap_or(text);
    let other = letters
        .iter()
        .position(|c| !matches!(*c, b'D' | b'X' | b'R' | b'O' | b'.'));
    let Some(index) = other else {
        return Ok(true);
    };
    let column = column.saturating_add(1).saturating_add(index);
    let found = [letters.get(index).copied().unwrap_or(b' ')];
    let shown = if found == [b' '] {
        Bytes(b"a blank")
    } else {
        Bytes(found.as_slice())
    };
    reading.wrong(
        n,
        column,
        NO_FORM,
        &[
            Bytes(b"the letters of a link are D, X, R, O and ., but found "),
            shown,
        ],
    )?;
    Ok(false)
}

fn has_queue(
    reading: &mut Reading,
    n: usize,
    column: usize,
    text: &[u8],
) -> Result<bool, AllocError> {
    if is_number(text) || text.strip_prefix(b"-").is_some_and(is_number) {
        return Ok(true);
    }
    let why = no_number(reading.alloc, text)?;
    reading.wrong(
        n,
        column,
        NO_FORM,
        &[
            Bytes(b"a queue's number is that of a task, or -1, -2 or -3; "),
            Bytes(why.as_slice()),
        ],
    )?;
    Ok(false)
}

fn has_number(
    reading: &mut Reading,
    n: usize,
    part: Part,
    column: usize,
    text: &[u8],
) -> Result<bool, AllocError> {
    if is_number(text) {
        return Ok(true);
    }
    let why = no_number(reading.alloc, text)?;
    reading.wrong(
        n,
        column,
        NO_FORM,
        &[
            Bytes(part.called()),
            Bytes(b" is due here; "),
            Bytes(why.as_slice()),
        ],
    )?;
    Ok(false)
}
