// What is said of a text that is refused.
ghost use Rattle.std.specs.Prelude.{◌≡◌, ◌++◌, Some, IfOk, OnOk, option_map};
ghost use Rattle.tool_texts.specs.Reports.{head_text, place_text};
ghost use Rattle.tool_texts.specs.Told.{told_of};
ghost use Rattle.text_errors.specs.Telling.{IsSaid, refusal_of, said_text};

use crate::boots::boot;
use crate::debugger_lines::{lines_after_session, read_debugger_lines};
use crate::findings::Finding;
use crate::kinds::TextKind;
use crate::modules::read_whole_module;
use crate::places::Surroundings;
use crate::reading::Reading;
use crate::rings::read_ring;
use crate::sessions::read_session;
use std::alloc::{AllocError, Global};
use tool_texts::Said::{Bytes, Number};
use tool_texts::{Lent, Report, ToolText, push_sentence, reports_text};

/// Where and why the program refuses a text.
#[derive(Clone, Copy)]
pub struct Refusal {
    /// The number of the line, from 1.
    pub line: u32,
    /// The code that says why.
    pub code: u32,
}

/// What is wrong in a text of this kind: of each error, up to 20, its line, what is there and what was expected, with the code of the
/// refusal. The name is that of the file, or empty. The refusal is that of the program, or `None` where it takes the text. Then nothing
/// is said; else the first error has the line and the code of the refusal.
pub fn text_errors(
    alloc: Global,
    kind: TextKind,
    name: &[u8],
    text: &[u8],
    refusal: Option<Refusal>,
) -> Result<ToolText, AllocError>
    ensures { IfOk result (λ t. IsSaid name.now (option_map refusal_of refusal) (told_of t)) }
{
    match refusal {
        Some(refusal) => refused(alloc, kind, name, text, refusal),
        None => Ok(ToolText {
            is_wrong: false,
            bytes: Vec::new(alloc),
        }),
    }
}

// What is said of a text that is refused. Where the first error that is found is another one, the line and the code of the refusal are all that is said.
fn refused(
    alloc: Global,
    kind: TextKind,
    name: &[u8],
    text: &[u8],
    refusal: Refusal,
) -> Result<ToolText, AllocError>
    ensures { IfOk result (λ t. IsSaid name.now (Some (refusal_of refusal)) (told_of t)) }
{
    let reading = find_errors(alloc, kind, text)?;
    match reading.findings.as_slice().split_first() {
        Some((first, others)) if is_at(first, refusal) => {
            let more = others_text(alloc, name, &reading, others)?;
            let shown = shown_line(&reading, first.line);
            told(
                alloc,
                name,
                refusal,
                first.words.as_slice(),
                shown,
                first.column,
                more,
            )
        }
        _ => {
            let shown = shown_line(&reading, refusal.line as usize);
            told(
                alloc,
                name,
                refusal,
                b"this line is refused",
                shown,
                1,
                Vec::new(alloc),
            )
        }
    }
}

// The errors of a text of this kind.
fn find_errors<'a>(
    alloc: Global,
    kind: TextKind,
    text: &'a [u8],
) -> Result<Reading<'a>, AllocError> {
    let mut reading = Reading::new(alloc, text)?;
    match kind {
        TextKind::Session | TextKind::Debugging => read_alone(&mut reading, kind)?,
        TextKind::Ring => read_ring(&mut reading)?,
        TextKind::Module => read_whole_module(&mut reading)?,
    }
    Ok(reading)
}

// A session, and the debugger's lines after it. What the boot refuses is looked for where nothing else is wrong.
fn read_alone(reading: &mut Reading, kind: TextKind) -> Result<(), AllocError> {
    let session = read_session(reading, 1, Surroundings::Alone)?;
    if matches!(kind, TextKind::Debugging) {
        read_debugger_lines(reading, session.next)?;
    } else if session.next <= reading.lines.count() {
        lines_after_session(reading, session.next)?;
    }
    if !reading.findings.is_empty() {
        return Ok(());
    }
    boot(reading, &session.draft)
}

// Whether an error is the one for which a text is refused.
fn is_at(finding: &Finding, refusal: Refusal) -> bool {
    finding.line as u64 == u64::from(refusal.line) && finding.code == refusal.code
}

// Line n, where there is one.
fn shown_line<'a>(reading: &Reading<'a>, n: usize) -> Option<Lent<'a>> {
    if n > reading.lines.count() {
        return None;
    }
    Some(Lent::new(reading.lines.whole(n)))
}

// The error at which a text is refused, with these words, and then what is said besides.
fn told(
    alloc: Global,
    name: &[u8],
    refusal: Refusal,
    words: &[u8],
    shown: Option<Lent>,
    column: usize,
    more: Vec<u8>,
) -> Result<ToolText, AllocError>
    ensures { IfOk result (λ t. IsSaid name.now (Some (refusal_of refusal)) (told_of t)) }
{
    let mut bytes = said_text(
        alloc,
        name,
        u64::from(refusal.line),
        refusal.code,
        words,
        shown,
        column,
    )?;
    bytes.extend_from_slice(more.as_slice())?;
    Ok(ToolText {
        is_wrong: true,
        bytes,
    })
}

// What is said of an error: its place, the words with the code, and the line with a mark under the column, where there is such a line.
fn said_text(
    alloc: Global,
    name: &[u8],
    line: u64,
    code: u32,
    words: &[u8],
    shown: Option<Lent>,
    column: usize,
) -> Result<Vec<u8>, AllocError>
    ensures { IfOk result (λ v. v.items ≡ said_text name.now line code words.now shown.entry column) }
{
    match shown {
        Some(text) => {
            let words = Vec::from_slice(alloc, words)?;
            let report = Report {
                line,
                column,
                text: text.bytes(),
                words,
                code,
            };
            reports_text(alloc, name, &[report])
        }
        None => head_text(alloc, name, line, code, words),
    }
}

// The same, where there is no such line.
fn head_text(
    alloc: Global,
    name: &[u8],
    line: u64,
    code: u32,
    words: &[u8],
) -> Result<Vec<u8>, AllocError>
    ensures { IfOk result (λ v. v.items ≡ place_text name.now line ++ head_text words.now code) }
{
    let mut text = Vec::new(alloc);
    push_place(&mut text, name, line)?;
    push_head(&mut text, words, code)?;
    Ok(text)
}

fn push_place(text: &mut Vec<u8>, name: &[u8], line: u64) -> Result<(), AllocError>
    ensures { OnOk result (text.new.items ≡ text.old.items ++ place_text name.now line) }
{
    if name.is_empty() {
        return push_sentence(text, &[Bytes(b"line "), Number(line), Bytes(b": ")]);
    }
    push_sentence(
        text,
        &[Bytes(name), Bytes(b":"), Number(line), Bytes(b": ")],
    )
}

fn push_head(text: &mut Vec<u8>, words: &[u8], code: u32) -> Result<(), AllocError>
    ensures { OnOk result (text.new.items ≡ text.old.items ++ head_text words.now code) }
{
    if code == 0 {
        return push_sentence(text, &[Bytes(words), Bytes(b"\n")]);
    }
    push_sentence(
        text,
        &[
            Bytes(words),
            Bytes(b" (code "),
            Number(code as u64),
            Bytes(b")\n"),
        ],
    )
}

// What is said of the other errors, and how many more there are.
fn others_text(
    alloc: Global,
    name: &[u8],
    reading: &Reading,
    others: &[Finding],
) -> Result<Vec<u8>, AllocError> {
    let mut text = Vec::new(alloc);
    for finding in others {
        let shown = shown_line(reading, finding.line);
        let said = said_text(
            alloc,
            name,
            finding.line as u64,
            finding.code,
            finding.words.as_slice(),
            shown,
            finding.column,
        )?;
        text.extend_from_slice(said.as_slice())?;
    }
    push_more(&mut text, name, reading.findings.more())?;
    Ok(text)
}

fn push_more(text: &mut Vec<u8>, name: &[u8], more: usize) -> Result<(), AllocError> {
    if more == 0 {
        return Ok(());
    }
    if !name.is_empty() {
        push_sentence(text, &[Bytes(name), Bytes(b": ")])?;
    }
    push_sentence(
        text,
        &[Bytes(b"and "), Number(more as u64), Bytes(b" more\n")],
    )
}
