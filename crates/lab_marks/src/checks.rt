// The expectations of a mark, and the lines of their texts.

use crate::cuts::{cut, three_fields, two_fields};
use crate::drafts::{Draft, push_said};
use crate::ends::Hindered;
use crate::expressions::value_of;
use crate::fillings::filled;
use crate::known::set;
use crate::plans::{PlanFile, push_piece};
use crate::tokens::digits_end;
use crate::wrongs::Wrong;
use module_text::any_number;
use std::alloc::{AllocError, Global};
use tool_texts::Said::{Bytes, Number};

/// The last period that a line `tries` may have.
const MOST_PERIODS: u64 = 1_000_000;

/// How often a line is repeated at most.
const MOST_LINES: i64 = 1_000_000;

/// A kind of expectation.
#[derive(Clone, Copy, PartialEq, Eq)]
pub enum Check {
    /// A file assembles.
    Assembles,
    /// A file has so many words at most.
    Size,
    /// The run ends so.
    Ends,
    /// The console has this text, or these lines.
    Text,
    /// So many lines, events or answers fit a pattern, or these events do.
    Pattern,
    /// The debugger does a line, an answer is so, or a file has so many other lines.
    Other,
    /// The runs with these periods of the clock are so, too.
    Tries,
}

/// The kind of expectation that this word is; `None` where it is none.
pub fn check_named(kind: &[u8]) -> Option<Check> {
    match kind {
        b"assembles" => Some(Check::Assembles),
        b"size" => Some(Check::Size),
        b"ends" => Some(Check::Ends),
        b"writes" | b"has" => Some(Check::Text),
        b"lines" | b"events" | b"turns" | b"count" | b"resumes" => Some(Check::Pattern),
        b"ask" | b"answer" | b"keeps" => Some(Check::Other),
        b"tries" => Some(Check::Tries),
        _ => None,
    }
}

/// An expectation comes next, whose line has this word and then this text.
pub fn obey_check<'a>(
    alloc: Global,
    draft: &mut Draft<'a>,
    check: Check,
    kind: &'a [u8],
    text: &'a [u8],
) -> Result<(), Hindered<'a>> {
    let words = filled(alloc, &draft.known, check == Check::Pattern, text)?;
    if let Some(wrong) = wrong_in(check, &words) {
        return Err(Hindered::Refused(wrong));
    }
    draft.made = draft.made.saturating_add(1);
    draft.has_checks = true;
    draft.takes_lines = true;
    let lines = PlanFile::Lines(draft.made);
    push_piece(&mut draft.plan, lines, b"")?;
    push_check(alloc, draft, kind, &words)?;
    Ok(())
}

// Adds the line of the last expectation: its word, its number, and the other words.
fn push_check<'t>(
    alloc: Global,
    draft: &mut Draft<'_>,
    kind: &'t [u8],
    words: &'t [u8],
) -> Result<(), AllocError> {
    let file = PlanFile::Checks(draft.count);
    let number = Number(draft.made);
    push_said(
        alloc,
        draft,
        file,
        &[
            Bytes(kind),
            Bytes(b" "),
            number,
            Bytes(b" "),
            Bytes(words),
            Bytes(b"\n"),
        ],
    )
}

// What is wrong in the words of an expectation, if something is.
fn wrong_in<'a>(check: Check, words: &[u8]) -> Option<Wrong<'a>> {
    match check {
        Check::Tries => wrong_periods(words),
        Check::Size => wrong_size(words),
        _ => None,
    }
}

// The words are `tick` and two periods, the first and the last one.
fn wrong_periods<'a>(words: &[u8]) -> Option<Wrong<'a>> {
    let Some((tick, first, last)) = three_fields(words) else {
        return Some(Wrong::TriesForm);
    };
    if tick != b"tick".as_slice() {
        return Some(Wrong::TriesForm);
    }
    let (Some(first), Some(last)) = (any_number(first), any_number(last)) else {
        return Some(Wrong::TriesForm);
    };
    if first < 1 || first > last || last > MOST_PERIODS {
        return Some(Wrong::Periods);
    }
    None
}

// The words are a name and a number.
fn wrong_size<'a>(words: &[u8]) -> Option<Wrong<'a>> {
    match two_fields(words) {
        Some((_, most)) if !most.is_empty() && digits_end(most) == most.len() => None,
        _ => Some(Wrong::SizeForm),
    }
}

/// A line of the text of the last expectation comes next: with its line end, or without one.
pub fn obey_line<'a>(
    alloc: Global,
    draft: &mut Draft<'a>,
    has_end: bool,
    text: &'a [u8],
) -> Result<(), Hindered<'a>> {
    if !draft.takes_lines {
        return Err(Hindered::Refused(Wrong::NoExpectation));
    }
    let mut line = filled(alloc, &draft.known, false, text)?;
    if has_end {
        line.push(b'\n')?;
    }
    let file = PlanFile::Lines(draft.made);
    push_piece(&mut draft.plan, file, &line)?;
    Ok(())
}

/// The same line comes for each value of a name: `NAME FROM TO |TEXT`.
pub fn obey_repeat<'a>(
    alloc: Global,
    draft: &mut Draft<'a>,
    text: &'a [u8],
) -> Result<(), Hindered<'a>> {
    let Some((front, line)) = cut(b'|', text) else {
        return Err(Hindered::Refused(Wrong::RepeatForm));
    };
    let Some((name, first, last)) = three_fields(front) else {
        return Err(Hindered::Refused(Wrong::RepeatForm));
    };
    let first = value_of(alloc, &draft.known, first)?;
    let last = value_of(alloc, &draft.known, last)?;
    set(&mut draft.known, name, first)?;
    if last < first {
        return Ok(());
    }
    if last.saturating_sub(first) >= MOST_LINES {
        return Err(Hindered::Refused(Wrong::ManyLines));
    }
    for value in first..=last {
        set(&mut draft.known, name, value)?;
        obey_line(alloc, draft, true, line)?;
    }
    // the name keeps the value after the last one
    set(&mut draft.known, name, last.saturating_add(1))?;
    Ok(())
}
