// The form of a line.

use crate::line_words::LineWord;
use crate::part_forms::has_form;
use crate::part_ranges::is_within;
use crate::parts::{Part, Piece};
use crate::reading::{NO_FORM, Reading};
use std::alloc::{AllocError, Global};
use tool_texts::Lent;
use tool_texts::Said::Bytes;

/// The most files of a task of version 2.
const MOST_FILES: usize = 8;

/// The parts of line n, which begins with this word, where it has the form and the ranges of such a line. Else an error is found, the first of the
/// line. The version is that of the machine, or 0 where it is not known.
pub fn read_form<'a>(
    reading: &mut Reading<'a>,
    n: usize,
    line: &'a [u8],
    word: LineWord,
    version: u64,
) -> Result<Option<Vec<Piece<'a>>>, AllocError> {
    let pieces = pieces_of(reading.alloc, line, word)?;
    let most = word.parts().len().saturating_add(more_names(word, version));
    if !have_forms(reading, n, line, word, pieces.as_slice())?
        || !ends_in_time(reading, n, word, version, most, pieces.as_slice())?
        || !are_within(reading, n, word, version, pieces.as_slice())?
    {
        return Ok(None);
    }
    Ok(Some(pieces))
}

// How many names of files may be after the parts of the form.
fn more_names(word: LineWord, version: u64) -> usize {
    match word {
        LineWord::Task if version != 1 => MOST_FILES - 1,
        _ => 0,
    }
}

// What is between the blanks after the first word; a part that is the rest of its line goes to the end.
fn pieces_of<'a>(
    alloc: Global,
    line: &'a [u8],
    word: LineWord,
) -> Result<Vec<Piece<'a>>, AllocError> {
    let mut pieces = Vec::new(alloc);
    let mut rest = after_blank(line);
    let mut column = word.name().len().saturating_add(2);
    // each piece takes the blank before it
    for blank in 0..line.len() {
        let Some(text) = rest else {
            return Ok(pieces);
        };
        let is_rest = word
            .parts()
            .get(pieces.len())
            .is_some_and(|part| part.is_rest());
        let (own, others) = if is_rest {
            (text, None)
        } else {
            (before_blank(text), after_blank(text))
        };
        pieces.push(Piece {
            column,
            text: Lent::new(own),
        })?;
        column = column.saturating_add(own.len()).saturating_add(1);
        rest = others;
    }
    Ok(pieces)
}

// What is before the first blank.
fn before_blank(text: &[u8]) -> &[u8] {
    match text.iter().position(|c| *c == b' ') {
        Some(end) => &text[..end],
        None => text,
    }
}

// What is after the first blank; `None` exactly where there is none.
fn after_blank(text: &[u8]) -> Option<&[u8]> {
    let end = text.iter().position(|c| *c == b' ')?;
    Some(&text[end + 1..])
}

// Whether each part is there, with its form.
fn have_forms(
    reading: &mut Reading,
    n: usize,
    line: &[u8],
    word: LineWord,
    pieces: &[Piece],
) -> Result<bool, AllocError> {
    for (i, part) in word.parts().iter().enumerate() {
        let Some(piece) = pieces.get(i) else {
            missing(reading, n, line, word, *part)?;
            return Ok(false);
        };
        let is_last = i.saturating_add(1) == pieces.len();
        if piece.text.bytes().is_empty() && !part.is_rest() {
            empty(reading, n, word, *part, piece.column, is_last)?;
            return Ok(false);
        }
        if !has_form(reading, n, word, *part, piece)? {
            return Ok(false);
        }
    }
    Ok(true)
}

// A part is not there.
fn missing(
    reading: &mut Reading,
    n: usize,
    line: &[u8],
    word: LineWord,
    part: Part,
) -> Result<(), AllocError> {
    reading.wrong(
        n,
        line.len().saturating_add(1),
        NO_FORM,
        &[
            Bytes(b"after "),
            Bytes(line),
            Bytes(b" "),
            Bytes(part.called()),
            Bytes(b" is missing: the line is "),
            Bytes(word.shape()),
        ],
    )
}

// A blank is where a part is due: the line ends after it, or there is one too many.
fn empty(
    reading: &mut Reading,
    n: usize,
    word: LineWord,
    part: Part,
    column: usize,
    is_last: bool,
) -> Result<(), AllocError> {
    if !is_last {
        return one_blank_more(reading, n, column);
    }
    reading.wrong(
        n,
        column,
        NO_FORM,
        &[
            Bytes(b"after the blank "),
            Bytes(part.called()),
            Bytes(b" is missing: the line is "),
            Bytes(word.shape()),
        ],
    )
}

fn one_blank_more(reading: &mut Reading, n: usize, column: usize) -> Result<(), AllocError> {
    reading.wrong(
        n,
        column,
        NO_FORM,
        &[Bytes(b"exactly one blank is between two parts of a line, but found one more")],
    )
}

// Whether nothing is after the parts, of which there are so many at most: those of the form, and the further files of a task.
fn ends_in_time(
    reading: &mut Reading,
    n: usize,
    word: LineWord,
    version: u64,
    most: usize,
    pieces: &[Piece],
) -> Result<bool, AllocError> {
    for (i, piece) in pieces.iter().enumerate().skip(word.parts().len()) {
        if piece.text.bytes().is_empty() {
            let column = piece.column.saturating_sub(1);
            if i.saturating_add(1) != pieces.len() {
                one_blank_more(reading, n, column)?;
                return Ok(false);
            }
            reading.wrong(
                n,
                column,
                NO_FORM,
                &[Bytes(b"nothing is after the last part of a line, not even a blank")],
            )?;
            return Ok(false);
        }
        if i >= most {
            one_part_more(reading, n, word, version, piece)?;
            return Ok(false);
        }
    }
    Ok(true)
}

fn one_part_more(
    reading: &mut Reading,
    n: usize,
    word: LineWord,
    version: u64,
    piece: &Piece,
) -> Result<(), AllocError> {
    let text = piece.text.bytes();
    match word {
        LineWord::Task if version == 1 => reading.wrong(
            n,
            piece.column,
            NO_FORM,
            &[
                Bytes(text),
                Bytes(
                    b" is one part too many: a task has one file in version 1, and up to eight in version 2",
                ),
            ],
        ),
        LineWord::Task => reading.wrong(
            n,
            piece.column,
            NO_FORM,
            &[
                Bytes(text),
                Bytes(b" is one part too many: a task has at most eight files"),
            ],
        ),
        _ => reading.wrong(
            n,
            piece.column,
            NO_FORM,
            &[
                Bytes(text),
                Bytes(b" is one part too many: the line is "),
                Bytes(word.shape()),
            ],
        ),
    }
}

// Whether each part is in its range. Those after the parts of the form are names.
fn are_within(
    reading: &mut Reading,
    n: usize,
    word: LineWord,
    version: u64,
    pieces: &[Piece],
) -> Result<bool, AllocError> {
    for (i, piece) in pieces.iter().enumerate() {
        let part = word.parts().get(i).copied().unwrap_or(Part::Name);
        if !is_within(reading, n, version, part, piece)? {
            return Ok(false);
        }
    }
    Ok(true)
}
