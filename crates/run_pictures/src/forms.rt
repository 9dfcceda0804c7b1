// How a picture is to be drawn.
ghost use Rattle.std.specs.Prelude.{◌≡◌};
ghost use Rattle.run_pictures.specs.Forms.{rows_of, width_of};

use crate::texts::leading_number;
use module_text::{after_word, number, split_line};

/// The width of a picture that is a file, in pixels: that of a page of paper.
const PAPER_WIDTH: u64 = 760;

/// The most pixels that a picture is wide.
const MOST_WIDTH: u64 = 100_000;

/// How a picture is to be drawn.
#[derive(Clone, Copy, PartialEq, Eq)]
pub struct Form {
    /// The width that is wanted, in pixels.
    pub width: u64,
    /// Whether it is a part of a document, which has the style, and not a file of its own.
    pub is_part: bool,
    /// How many rows are passed over before the first one that is drawn.
    pub first: u64,
    /// How many rows are drawn, at most.
    pub count: u64,
}

/// A log, and how its picture is to be drawn.
#[derive(Drop)]
pub struct Asked<'a> {
    /// The form of the picture.
    pub form: Form,
    /// How many lines before the log say so.
    pub lines: u64,
    /// The log.
    pub log: &'a [u8],
}

/// What is asked for by the lines before a log: `width N`, and after it `rows FIRST COUNT`, where FIRST counts from 0. Where the first of them is
/// missing the picture is a file of its own, and where the second one is missing it has all rows.
pub fn asked_of(text: &[u8]) -> Asked<'_> {
    match width_line(text) {
        Some((width, rest)) => with_rows(width, rest),
        None => Asked {
            form: Form {
                width: PAPER_WIDTH,
                is_part: false,
                first: 0,
                count: u64::MAX,
            },
            lines: 0,
            log: text,
        },
    }
}

// The same, of what comes after the line with the width.
fn with_rows(width: u64, text: &[u8]) -> Asked<'_> {
    let (rows, lines, log) = match rows_line(text) {
        Some((rows, rest)) => (rows, 2, rest),
        None => ((0, u64::MAX), 1, text),
    };
    Asked {
        form: Form {
            width: width.min(MOST_WIDTH),
            is_part: true,
            first: rows.0,
            count: rows.1,
        },
        lines,
        log,
    }
}

// The width of a line `width N`, and the text after it; `None` exactly where the text does not begin with such a line.
fn width_line(text: &[u8]) -> Option<(u64, &[u8])> {
    let (line, rest) = split_line(text)?;
    Some((width_of(line)?, rest))
}

// The width that a line `width N` says; `None` exactly where the line is none.
fn width_of(line: &[u8]) -> Option<u64>
    ensures { result ≡ width_of line.now }
{
    number(after_word(b"width ", line)?)
}

// The numbers of a line `rows FIRST COUNT`, and the text after it; `None` exactly where the text does not begin with such a line.
fn rows_line(text: &[u8]) -> Option<((u64, u64), &[u8])> {
    let (line, rest) = split_line(text)?;
    Some((rows_of(line)?, rest))
}

// The numbers that a line `rows FIRST COUNT` says; `None` exactly where the line is none.
fn rows_of(line: &[u8]) -> Option<(u64, u64)>
    ensures { result ≡ rows_of line.now }
{
    let rows = after_word(b"rows ", line)?;
    let (first, rest) = leading_number(rows)?;
    let count = after_word(b" ", rest)?;
    let count = number(count)?;
    Some((first, count))
}
