// The marks of a lab, read line by line.

use crate::checks::{check_named, obey_check, obey_line, obey_repeat};
use crate::cuts::{after_word, cut, first_field, next_field};
use crate::drafts::{Draft, end_mark, push_said};
use crate::ends::Hindered;
use crate::fillings::filled;
use crate::known::Known;
use crate::lets::{let_of, obey_let};
use crate::plans::PlanFile;
use crate::sessions::words_of;
use crate::stops::{Stop, stop_at};
use crate::tokens::without_blanks;
use crate::wrongs::Wrong;
use module_text::number;
use std::alloc::{AllocError, Global};
use tool_texts::Said::{Bytes, Number};
use tool_texts::{Lent, push_blanks, push_sentence};

/// The most digits of the points of a mark.
const MOST_DIGITS: usize = 8;

/// A text without the line end that it ends with.
pub fn without_last_end(text: &[u8]) -> &[u8] {
    text.strip_suffix(b"\n").unwrap_or(text)
}

/// What the marks at this path say, where names have these values at first.
pub fn read_marks<'a>(
    alloc: Global,
    known: Known<'a>,
    path: &'a [u8],
    text: &'a [u8],
) -> Result<Draft<'a>, Stop<'a>> {
    let mut draft = Draft::new(alloc, known);
    let mut n = 0u64;
    if !text.is_empty() {
        for line in without_last_end(text).split(|c| *c == b'\n') {
            n = n.saturating_add(1);
            if let Err(hindered) = obey(alloc, &mut draft, line) {
                return Err(stop_at(path, n, hindered));
            }
        }
    }
    match end_mark(alloc, &mut draft) {
        Ok(()) => Ok(draft),
        Err(hindered) => Err(stop_at(path, n, hindered)),
    }
}

/// The values of names after the lines `let` of the marks at this path.
pub fn read_lets<'a>(
    alloc: Global,
    known: Known<'a>,
    path: &'a [u8],
    text: &'a [u8],
) -> Result<Known<'a>, Stop<'a>> {
    let mut known = known;
    let mut told = Vec::new(alloc);
    let mut n = 0u64;
    for line in text.split(|c| *c == b'\n') {
        n = n.saturating_add(1);
        if let Err(hindered) = obey_if_let(alloc, &mut known, &mut told, line) {
            return Err(stop_at(path, n, hindered));
        }
    }
    Ok(known)
}

// A line comes next, of which only `let` is read. Whether it is one.
fn obey_if_let<'a>(
    alloc: Global,
    known: &mut Known<'a>,
    told: &mut Vec<Vec<u8>>,
    line: &'a [u8],
) -> Result<bool, Hindered<'a>> {
    if first_field(line) != b"let".as_slice() {
        return Ok(false);
    }
    if let Some(said) = let_of(line) {
        obey_let(alloc, known, told, &said)?;
    }
    Ok(true)
}

// A line comes next. Empty lines, and those that begin with `#`, are comment.
fn obey<'a>(alloc: Global, draft: &mut Draft<'a>, line: &'a [u8]) -> Result<(), Hindered<'a>> {
    if line.starts_with(b"#") || obey_if_let(alloc, &mut draft.known, &mut draft.told, line)? {
        return Ok(());
    }
    match without_blanks(line).split_first() {
        Some((b'|', text)) => obey_line(alloc, draft, true, text),
        Some((b'>', text)) => obey_line(alloc, draft, false, text),
        _ => match next_field(line) {
            Some((kind, rest)) => obey_kind(
                alloc,
                draft,
                kind,
                first_field(rest),
                after_word(line),
            ),
            None => Ok(()),
        },
    }
}

// A line comes next with this word first, and then this one; the text is what comes after the first.
fn obey_kind<'a>(
    alloc: Global,
    draft: &mut Draft<'a>,
    kind: &'a [u8],
    second: &'a [u8],
    text: &'a [u8],
) -> Result<(), Hindered<'a>> {
    match kind {
        b"title" => Ok(push_title(alloc, draft, text)?),
        b"file" => {
            let parts = [Bytes(b"file "), Bytes(text), Bytes(b"\n")];
            Ok(push_said(alloc, draft, PlanFile::Head, &parts)?)
        }
        b"copy" => {
            let copy = filled(alloc, &draft.known, false, text)?;
            let parts = [Bytes(&copy), Bytes(b"\n")];
            Ok(push_said(alloc, draft, PlanFile::Copies, &parts)?)
        }
        b"mark" => {
            end_mark(alloc, draft)?;
            begin_mark(alloc, draft, second, text)
        }
        _ if draft.count == 0 => Err(Hindered::Refused(Wrong::NoMark)),
        b"session" => {
            let said = filled(alloc, &draft.known, false, text)?;
            draft.session = words_of(alloc, &said)?;
            Ok(())
        }
        b"repeat" => obey_repeat(alloc, draft, text),
        _ => match check_named(kind) {
            Some(check) => obey_check(alloc, draft, check, kind, text),
            None => Err(Hindered::Refused(Wrong::NoLine(Lent::new(kind)))),
        },
    }
}

// The title of the lab, or one more.
fn push_title(alloc: Global, draft: &mut Draft<'_>, text: &[u8]) -> Result<(), AllocError> {
    push_sentence(&mut draft.title, &[Bytes(text), Bytes(b"\n")])?;
    let parts = [Bytes(b"title "), Bytes(text), Bytes(b"\n")];
    push_said(alloc, draft, PlanFile::Head, &parts)
}

// A mark begins, with these points. The text has the points once more, and then the words of the mark.
fn begin_mark<'a>(
    alloc: Global,
    draft: &mut Draft<'a>,
    points: &'a [u8],
    text: &'a [u8],
) -> Result<(), Hindered<'a>> {
    if points.len() > MOST_DIGITS {
        return Err(Hindered::Refused(Wrong::MarkForm));
    }
    let Some(worth) = number(points) else {
        return Err(Hindered::Refused(Wrong::MarkForm));
    };
    draft.count = draft.count.saturating_add(1);
    draft.total = draft.total.saturating_add(worth);
    let words = filled(alloc, &draft.known, false, mark_words(text))?;
    draft.marked.push(marked_text(alloc, worth, &words)?)?;
    push_mark(alloc, draft, points, &words)?;
    Ok(())
}

// Adds the line of the last mark: its points and its words.
fn push_mark<'t>(
    alloc: Global,
    draft: &mut Draft<'_>,
    points: &'t [u8],
    words: &'t [u8],
) -> Result<(), AllocError> {
    let file = PlanFile::Mark(draft.count);
    let parts = [Bytes(points), Bytes(b" "), Bytes(words), Bytes(b"\n")];
    push_said(alloc, draft, file, &parts)
}

// What comes after the points, or the points where nothing does.
fn mark_words(text: &[u8]) -> &[u8] {
    match cut(b' ', text) {
        Some((_, words)) => without_blanks(words),
        None => text,
    }
}

// What is told of a mark.
fn marked_text(alloc: Global, worth: u64, words: &[u8]) -> Result<Vec<u8>, AllocError> {
    let mut told = Vec::new(alloc);
    push_blanks(&mut told, blanks_before(worth))?;
    push_sentence(
        &mut told,
        &[Number(worth), Bytes(b" points: "), Bytes(words)],
    )?;
    Ok(told)
}

// How many blanks are before points, so that those of three digits are as wide.
fn blanks_before(worth: u64) -> usize {
    match worth {
        0..=9 => 2,
        10..=99 => 1,
        _ => 0,
    }
}
