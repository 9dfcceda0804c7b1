// Whether the parts of a line are in their ranges.

use crate::parts::{Part, Piece};
use crate::reading::{OUT_OF_RANGE, Reading};
use module_text::number;
use std::alloc::AllocError;
use tool_texts::Said::{Bytes, Number};

/// The most bytes of a file's name.
const LONGEST_NAME: usize = 12;

/// The most letters of a link.
const MOST_LETTERS: usize = 10_000;

/// The least number of a queue, without its sign.
const LEAST_QUEUE: u64 = 2_147_483_648;

/// The greatest number of a queue.
const GREATEST_QUEUE: u64 = 4_294_967_295;

/// The most words of a store of version 1.
const MOST_WORDS_OF_1: u64 = 262_144;

/// The greatest number of a task of version 1.
const LAST_TASK_OF_1: u64 = 20;

/// The least number of a task that is no part of the system.
const FIRST_TASK: u64 = 5;

/// Whether a piece of line n, which has the form of its part, is in the range of that; else that is an error. The version is that of the machine, or 0
/// where it is not known.
pub fn is_within(
    reading: &mut Reading,
    n: usize,
    version: u64,
    part: Part,
    piece: &Piece,
) -> Result<bool, AllocError> {
    let text = piece.text.bytes();
    match part {
        Part::Version | Part::Key | Part::Text => Ok(true),
        Part::Name => is_name(reading, n, piece.column, text),
        Part::Letters => has_letter_count(reading, n, piece.column, text),
        Part::Queue => is_queue(reading, n, piece.column, text),
        _ => is_number_within(reading, n, version, part, piece),
    }
}

fn is_name(
    reading: &mut Reading,
    n: usize,
    column: usize,
    text: &[u8],
) -> Result<bool, AllocError> {
    if let Some(index) = text.iter().position(|c| !is_name_byte(*c)) {
        let found = [text.get(index).copied().unwrap_or(b' ')];
        reading.wrong(
            n,
            column.saturating_add(index),
            OUT_OF_RANGE,
            &[
                Bytes(b"a file's name has letters, digits, -, . and _, and no "),
                Bytes(found.as_slice()),
            ],
        )?;
        return Ok(false);
    }
    if text.len() <= LONGEST_NAME {
        return Ok(true);
    }
    reading.wrong(
        n,
        column.saturating_add(LONGEST_NAME),
        OUT_OF_RANGE,
        &[
            Bytes(b"a file's name has at most 12 bytes, and this one has "),
            Number(text.len() as u64),
        ],
    )?;
    Ok(false)
}

fn is_name_byte(byte: u8) -> bool {
    byte.is_ascii_alphanumeric() || matches!(byte, b'.' | b'_' | b'-')
}

// Whether so many letters are after the colon.
fn has_letter_count(
    reading: &mut Reading,
    n: usize,
    column: usize,
    text: &[u8],
) -> Result<bool, AllocError> {
    let count = text.len().saturating_sub(1);
    if 1 <= count && count <= MOST_LETTERS {
        return Ok(true);
    }
    reading.wrong(
        n,
        column.saturating_add(1),
        OUT_OF_RANGE,
        &[
            Bytes(b"a link has 1 to 10000 letters, and this one has "),
            Number(count as u64),
        ],
    )?;
    Ok(false)
}

fn is_queue(
    reading: &mut Reading,
    n: usize,
    column: usize,
    text: &[u8],
) -> Result<bool, AllocError> {
    let (digits, last) = match text.strip_prefix(b"-") {
        Some(digits) => (digits, LEAST_QUEUE),
        None => (text, GREATEST_QUEUE),
    };
    if number(digits).is_some_and(|value| value <= last) {
        return Ok(true);
    }
    reading.wrong(
        n,
        column,
        OUT_OF_RANGE,
        &[
            Bytes(text),
            Bytes(
                b" is out of range: a queue's number is from -2147483648 to 4294967295; those of the devices are -1 to -3",
            ),
        ],
    )?;
    Ok(false)
}

fn is_number_within(
    reading: &mut Reading,
    n: usize,
    version: u64,
    part: Part,
    piece: &Piece,
) -> Result<bool, AllocError> {
    let text = piece.text.bytes();
    let value = number(text).unwrap_or(0);
    let (least, most) = part.range();
    let last = last_of(version, part, most);
    if value < least || value > last {
        reading.wrong(
            n,
            piece.column,
            OUT_OF_RANGE,
            &[
                Bytes(text),
                Bytes(b" is out of range: "),
                Bytes(part.called()),
                Bytes(b" is from "),
                Number(least),
                Bytes(b" to "),
                Number(last),
                Bytes(later_range(part, last < value && value <= most)),
                Bytes(system_tasks(part, value)),
            ],
        )?;
        return Ok(false);
    }
    if matches!(part, Part::StoreSize) && value % 2 == 1 {
        reading.wrong(
            n,
            piece.column,
            OUT_OF_RANGE,
            &[
                Bytes(text),
                Bytes(b" is odd: a store has an even number of words"),
            ],
        )?;
        return Ok(false);
    }
    Ok(true)
}

// The greatest number of a part in this version.
fn last_of(version: u64, part: Part, most: u64) -> u64 {
    match part {
        Part::StoreSize if version == 1 => MOST_WORDS_OF_1,
        Part::Id if version == 1 => LAST_TASK_OF_1,
        _ => most,
    }
}

// What version 2 would take, where it would.
fn later_range(part: Part, is_taken_later: bool) -> &'static [u8] {
    match part {
        Part::StoreSize if is_taken_later => b", and in version 2 to 4194304",
        Part::Id if is_taken_later => b", and in version 2 to 63",
        _ => b"",
    }
}

fn system_tasks(part: Part, value: u64) -> &'static [u8] {
    match part {
        Part::Id if value < FIRST_TASK => b"; those below are the system's",
        _ => b"",
    }
}
