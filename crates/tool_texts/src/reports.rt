// What is wrong in a text, said with its place.
ghost use Rattle.std.specs.Prelude.{◌≡◌, ◌++◌, ◌<◌, drop, length, map, replicate, IfOk, OnOk};
ghost use Rattle.std.specs.Str.Lines.{strip_carriage_return};
ghost use Rattle.std.specs.List.{flat_map};
ghost use Rattle.tool_texts.specs.Reports.{head_text, more_text, place_text, report_of, report_text, reports_text, shown_byte, first_shown, shown_text, window};

use crate::Said::{Bytes, Number};
use crate::push_sentence;
use std::alloc::{AllocError, Global};

/// The most reports that are said.
const MOST_REPORTS: usize = 20;

/// The most bytes of a line that are shown.
const WIDTH: usize = 92;

/// The last column up to which a line is shown from its beginning.
const LAST_COLUMN: usize = 72;

/// How many columns are shown before a later one.
const COLUMNS_BEFORE: usize = 36;

/// What is wrong at a place of a text.
#[derive(Debug, Drop)]
pub struct Report<'a> {
    /// The number of the line, from 1.
    pub line: u64,
    /// The column at which its mark is, from 1.
    pub column: usize,
    /// The line, without its LF.
    pub text: &'a [u8],
    /// What is wrong, in words.
    pub words: Vec<u8>,
    /// The code that the program gives, or 0 where there is none.
    pub code: u32,
}

/// The text of up to 20 reports, and of how many more there are. The name is that of the file, or empty where it has none.
pub fn reports_text(alloc: Global, name: &[u8], reports: &[Report]) -> Result<Vec<u8>, AllocError>
    ensures { IfOk result (λ v. v.items ≡ reports_text name.now (map report_of reports.now)) }
{
    let mut text = Vec::new(alloc);
    if reports.len() <= MOST_REPORTS {
        push_reports(&mut text, name, reports)?;
        return Ok(text);
    }
    let (first, others) = reports.split_at(MOST_REPORTS);
    push_reports(&mut text, name, first)?;
    push_more(&mut text, name, others.len())?;
    Ok(text)
}

// The text of these reports.
fn push_reports(text: &mut Vec<u8>, name: &[u8], reports: &[Report]) -> Result<(), AllocError>
    ensures { OnOk result (text.new.items
        ≡ text.old.items ++ flat_map (report_text name.now) (map report_of reports.now)) }
{
    for report in reports {
        push_report(text, name, report)?;
    }
    Ok(())
}

// How many reports there are besides.
fn push_more(text: &mut Vec<u8>, name: &[u8], more: usize) -> Result<(), AllocError>
    ensures { OnOk result (text.new.items ≡ text.old.items ++ more_text name.now more) }
{
    if name.is_empty() {
        return push_sentence(
            text,
            &[Bytes(b"and "), Number(more as u64), Bytes(b" more\n")],
        );
    }
    push_sentence(
        text,
        &[
            Bytes(name),
            Bytes(b": and "),
            Number(more as u64),
            Bytes(b" more\n"),
        ],
    )
}

// The text of one report: its place and its words, the line, and a mark.
fn push_report(text: &mut Vec<u8>, name: &[u8], report: &Report) -> Result<(), AllocError>
    ensures { OnOk result (text.new.items
        ≡ text.old.items ++ report_text name.now (report_of report.now)) }
{
    push_place(text, name, report.line)?;
    push_words(text, report.words.as_slice(), report.code)?;
    push_shown(text, report.text, report.column)
}

// The place of a line.
fn push_place(text: &mut Vec<u8>, name: &[u8], line: u64) -> Result<(), AllocError>
    ensures { OnOk result (text.new.items ≡ text.old.items ++ place_text name.now line) }
{
    if name.is_empty() {
        return push_sentence(text, &[Bytes(b"line "), Number(line), Bytes(b": ")]);
    }
    push_sentence(
        text,
        &[Bytes(name), Bytes(b":"), Number(line), Bytes(b": ")],
    )
}

// The words, and the code where there is one.
fn push_words(text: &mut Vec<u8>, words: &[u8], code: u32) -> Result<(), AllocError>
    ensures { OnOk result (text.new.items ≡ text.old.items ++ head_text words.now code) }
{
    if code == 0 {
        return push_sentence(text, &[Bytes(words), Bytes(b"\n")]);
    }
    push_sentence(
        text,
        &[
            Bytes(words),
            Bytes(b" (code "),
            Number(code as u64),
            Bytes(b")\n"),
        ],
    )
}

// The part of a line around the column, and a mark below the column.
fn push_shown(text: &mut Vec<u8>, line: &[u8], column: usize) -> Result<(), AllocError>
    ensures { OnOk result (text.new.items ≡ text.old.items ++ shown_text line.now column) }
{
    let first = first_shown(column);
    push_sentence(text, &[Bytes(b"    ")])?;
    push_window(text, window(without_carriage_return(line), first))?;
    push_sentence(text, &[Bytes(b"\n    ")])?;
    push_blanks(text, column.saturating_sub(first + 1))?;
    push_sentence(text, &[Bytes(b"^\n")])
}

// How many columns of a line are not shown, before the others.
fn first_shown(column: usize) -> usize
    ensures value { result ≡ first_shown column }
    ensures below { result < usize.MAX }
{
    if column > LAST_COLUMN {
        column - COLUMNS_BEFORE - 1
    } else {
        0
    }
}

// The bytes from this one on, as many as are shown.
#[tactic(auto, using(std::proofs::lemmas::List::take_min))]
fn window(line: &[u8], first: usize) -> &[u8]
    ensures { result.now ≡ window line.now first }
{
    let rest = bytes_from(line, first);
    rest.split_at(WIDTH.min(rest.len())).0
}

// The bytes from this one on.
#[tactic(auto, using(std::proofs::lemmas::List::drop_all))]
fn bytes_from(line: &[u8], first: usize) -> &[u8]
    ensures { result.now ≡ drop first line.now }
{
    if line.len() <= first {
        return &[];
    }
    line.split_at(first).1
}

// Adds bytes as they are shown.
fn push_window(text: &mut Vec<u8>, bytes: &[u8]) -> Result<(), AllocError>
    ensures { OnOk result (text.new.items ≡ text.old.items ++ map shown_byte bytes.now) }
{
    for byte in bytes {
        text.push(shown_byte(*byte))?;
    }
    Ok(())
}

// A tab is shown as a blank, and a byte that is no ASCII character as `?`.
fn shown_byte(byte: u8) -> u8
    ensures { result ≡ shown_byte byte }
{
    match byte {
        b'\t' => b' ',
        b' '..=b'~' => byte,
        _ => b'?',
    }
}

/// Adds so many blanks.
pub fn push_blanks(text: &mut Vec<u8>, count: usize) -> Result<(), AllocError>
    ensures { OnOk result (text.new.items ≡ text.old.items ++ replicate count 32) }
{
    for done in 0..count {
        text.push(b' ')?;
    }
    Ok(())
}

// A line without the CR at its end.
fn without_carriage_return(line: &[u8]) -> &[u8]
    ensures { result.now ≡ strip_carriage_return line.now }
{
    line.strip_suffix(b"\r").unwrap_or(line)
}
