// The plain text that a text becomes.
ghost use Rattle.std.specs.Prelude.{◌≡◌, ◌<◌, ◌==◌, ◌++◌, ◌∷◌, [], IfOk, IfSome, MatchOption, OnOk, length, map};
ghost use Rattle.std.specs.List.{flat_map, join_with_byte, position};
ghost use Rattle.friendly_assembly.specs.KeptNames.{constants_kept, labels_kept, names_by};
ghost use Rattle.friendly_assembly.specs.PlainLine.{plain_line};
ghost use Rattle.friendly_assembly.specs.PlainText.{after_lines, friendly_told, has_open_line, lines_of, names_known, plain_text_by, told_by};
ghost use Rattle.friendly_assembly.specs.Strings.{string_lines};
ghost use Rattle.tool_texts.specs.Reports.{report_of};
ghost use Rattle.tool_texts.specs.Told.{told_of};

use crate::forms::form_reports;
use crate::names::Names;
use crate::plain_lines::plain_line;
use crate::second_labels::{KeptLabels, labels_of};
use crate::settings::{KeptConstants, constants_of};
use crate::strings::push_string;
use std::alloc::{AllocError, Global};
use tool_texts::{Report, ToolText, reports_text};

/// The plain text of a text with more forms, or what is wrong in it. The name is that of the file, or empty where it has none.
pub fn friendly_text(alloc: Global, name: &[u8], text: &[u8]) -> Result<ToolText, AllocError>
    ensures { IfOk result (λ t. told_of t ≡ friendly_told name.now text.now) }
{
    let lines = lines_of(alloc, text)?;
    let constants = constants_of(alloc, lines.as_slice())?;
    let labels = labels_of(alloc, &constants.table, lines.as_slice())?;
    let names = Names {
        constants: &constants.table,
        firsts: &labels.firsts,
    };
    let forms = form_reports(alloc, &names, lines.as_slice())?;
    tell(
        alloc,
        name,
        text,
        lines.as_slice(),
        constants,
        labels,
        forms,
    )
}

// What is wrong, if something is, or else the plain text.
fn tell<'a>(
    alloc: Global,
    name: &[u8],
    text: &[u8],
    lines: &[&'a [u8]],
    constants: KeptConstants<'a>,
    labels: KeptLabels<'a>,
    forms: Vec<Report<'a>>,
) -> Result<ToolText, AllocError>
    ensures { let constants = constants_kept constants.entry in
        let labels = labels_kept labels.entry in
        let plain = plain_text_by (names_known constants labels) text.now (map (λ line. line.now) lines.now) in
        let reports = (constants.reports ++ labels.reports) ++ map report_of forms.entry.items in
        IfOk result (λ t. told_of t ≡ told_by name.now plain reports) }
{
    let KeptConstants { table, reports } = constants;
    let KeptLabels {
        firsts,
        reports: more,
        ..
    } = labels;
    let names = Names {
        constants: &table,
        firsts: &firsts,
    };
    let reports = joined(reports, more, forms)?;
    tell_by(alloc, name, text, &names, lines, reports.as_slice())
}

// Reports, one list after another.
fn joined<'a>(
    mut first: Vec<Report<'a>>,
    mut second: Vec<Report<'a>>,
    mut third: Vec<Report<'a>>,
) -> Result<Vec<Report<'a>>, AllocError>
    ensures { let front = map report_of first.entry.items ++ map report_of second.entry.items in
        IfOk result (λ v. map report_of v.items ≡ front ++ map report_of third.entry.items) }
{
    first.append(&mut second)?;
    first.append(&mut third)?;
    Ok(first)
}

// The same, of all that is wrong.
fn tell_by<'a>(
    alloc: Global,
    name: &[u8],
    text: &[u8],
    names: &Names<'_, 'a>,
    lines: &[&'a [u8]],
    reports: &[Report<'a>],
) -> Result<ToolText, AllocError>
    ensures { let known = names_by names.now.constants.now names.now.firsts.now in
        let plain = plain_text_by known text.now (map (λ line. line.now) lines.now) in
        IfOk result (λ t. told_of t ≡ told_by name.now plain (map report_of reports.now)) }
{
    if reports.is_empty() {
        return Ok(ToolText {
            is_wrong: false,
            bytes: plain_text(alloc, text, names, lines)?,
        });
    }
    Ok(ToolText {
        is_wrong: true,
        bytes: reports_text(alloc, name, reports)?,
    })
}

// The lines of a text.
fn lines_of(alloc: Global, text: &[u8]) -> Result<Vec<&[u8]>, AllocError>
    ensures { IfOk result (λ v. map (λ line. line.now) v.items ≡ lines_of text.now) }
{
    let mut lines = Vec::new(alloc);
    let mut rest = text;
    while let Some((line, others)) = split_line(rest) {
        lines.push(line)?;
        rest = others;
    }
    lines.push(rest)?;
    Ok(lines)
}

// The first line and what comes after its LF; `None` exactly where there is no LF.
fn split_line(text: &[u8]) -> Option<(&[u8], &[u8])>
    ensures cases { let lines = lines_of text.now in
        MatchOption result (lines ≡ text.now ∷ []) (λ x. lines ≡ x.0.now ∷ lines_of x.1.now) }
    ensures goes_on { IfSome result (λ x. length x.1.now < length text.now) }
{
    match line_feed(text) {
        Some(end) => Some((text.split_at(end).0, text.split_at(end + 1).1)),
        None => None,
    }
}

// Where the first LF is.
fn line_feed(text: &[u8]) -> Option<usize>
    ensures place { result ≡ position (λ c. c == 10) text.now }
    ensures inside { IfSome result (λ i. i < length text.now) }
{
    text.iter().position(|c| *c == b'\n')
}

// The plain text of lines, by these names.
fn plain_text<'a>(
    alloc: Global,
    text: &[u8],
    names: &Names<'_, 'a>,
    lines: &[&'a [u8]],
) -> Result<Vec<u8>, AllocError>
    ensures { let known = names_by names.now.constants.now names.now.firsts.now in
        let all = plain_text_by known text.now (map (λ line. line.now) lines.now) in
        IfOk result (λ v. v.items ≡ all) }
{
    let mut plain = Vec::new(alloc);
    push_lines(alloc, &mut plain, names, lines)?;
    let strings = strings_of(alloc, lines)?;
    push_after(&mut plain, has_open_line(text), strings.as_slice())?;
    Ok(plain)
}

// Adds the plain lines, with a LF between each two.
fn push_lines<'a>(
    alloc: Global,
    text: &mut Vec<u8>,
    names: &Names<'_, 'a>,
    lines: &[&'a [u8]],
) -> Result<(), AllocError>
    ensures { let known = names_by names.now.constants.now names.now.firsts.now in
        let all = join_with_byte 10 (map (plain_line known) (map (λ line. line.now) lines.now)) in
        OnOk result (text.new.items ≡ text.old.items ++ all) }
{
    let Some((first, others)) = lines.split_first() else {
        return Ok(());
    };
    push_line(alloc, text, names, first)?;
    push_others(alloc, text, names, others)
}

// Adds a LF and a plain line for each of these lines.
fn push_others<'a>(
    alloc: Global,
    text: &mut Vec<u8>,
    names: &Names<'_, 'a>,
    lines: &[&'a [u8]],
) -> Result<(), AllocError>
    ensures { let known = names_by names.now.constants.now names.now.firsts.now in
        let all = flat_map (λ line. 10 ∷ plain_line known line) (map (λ line. line.now) lines.now) in
        OnOk result (text.new.items ≡ text.old.items ++ all) }
{
    for line in lines {
        text.push(b'\n')?;
        push_line(alloc, text, names, line)?;
    }
    Ok(())
}

// Adds a plain line.
fn push_line<'a>(
    alloc: Global,
    text: &mut Vec<u8>,
    names: &Names<'_, 'a>,
    line: &'a [u8],
) -> Result<(), AllocError>
    ensures { let known = names_by names.now.constants.now names.now.firsts.now in
        OnOk result (text.new.items ≡ text.old.items ++ plain_line known line.now) }
{
    let plain = plain_line(alloc, names, line)?;
    text.extend_from_slice(&plain)
}

// The lines of the strings of lines.
fn strings_of(alloc: Global, lines: &[&[u8]]) -> Result<Vec<u8>, AllocError>
    ensures { let all = flat_map string_lines (map (λ line. line.now) lines.now) in
        IfOk result (λ v. v.items ≡ all) }
{
    let mut text = Vec::new(alloc);
    for line in lines {
        push_string(alloc, &mut text, line)?;
    }
    Ok(text)
}

// Adds the lines of the strings, after a last line that may lack its end.
fn push_after(text: &mut Vec<u8>, is_open: bool, strings: &[u8]) -> Result<(), AllocError>
    ensures { OnOk result (text.new.items
        ≡ text.old.items ++ after_lines is_open strings.now) }
{
    if is_open && !strings.is_empty() {
        text.push(b'\n')?;
    }
    text.extend_from_slice(strings)
}

// Whether a text has a last line without an end.
fn has_open_line(text: &[u8]) -> bool
    ensures { result ≡ has_open_line text.now }
{
    !text.is_empty() && !text.ends_with(b"\n")
}
