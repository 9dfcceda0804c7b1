// What is wrong in the forms of lines.
ghost use Rattle.std.specs.Prelude.{◌≡◌, ◌++◌, IfOk, OnOk, map};
ghost use Rattle.friendly_assembly.specs.KeptNames.{names_by};
ghost use Rattle.friendly_assembly.specs.LineForms.{flaw_in, form_reports, line_flaws, one_flaw, operand_flaws, said_flaws};
ghost use Rattle.friendly_assembly.specs.Readings.{code_of};
ghost use Rattle.friendly_assembly.specs.Settings.{report_at};
ghost use Rattle.tool_texts.specs.Reports.{report_of};

use crate::flaws::Flaw;
use crate::labels::split_labels;
use crate::names::Names;
use crate::operands::operand_of;
use crate::parts::{Part, parts_of};
use crate::readings::code_length;
use crate::settings::push_report;
use crate::strange_bytes::strange_flaw;
use crate::strings::string_flaw;
use std::alloc::{AllocError, Global};
use tool_texts::Report;

/// What is wrong in the forms of lines, by these names.
pub fn form_reports<'a>(
    alloc: Global,
    names: &Names<'_, 'a>,
    lines: &[&'a [u8]],
) -> Result<Vec<Report<'a>>, AllocError>
    ensures { let known = names_by names.now.constants.now names.now.firsts.now in
        let all = form_reports known 1 (map (λ line. line.now) lines.now) in
        IfOk result (λ v. map report_of v.items ≡ all) }
{
    let mut reports = Vec::new(alloc);
    for (i, line) in lines.iter().enumerate() {
        add_line(alloc, names, &mut reports, i as u64 + 1, line)?;
    }
    Ok(reports)
}

// What is wrong in line n.
fn add_line<'a>(
    alloc: Global,
    names: &Names<'_, 'a>,
    reports: &mut Vec<Report<'a>>,
    n: u64,
    line: &'a [u8],
) -> Result<(), AllocError>
    ensures { let known = names_by names.now.constants.now names.now.firsts.now in
        let more = map (report_at n line.now) (line_flaws known (code_of line.now)) in
        OnOk result (map report_of reports.new.items ≡ map report_of reports.old.items ++ more) }
{
    let (code, _) = line.split_at(code_length(line));
    if let Some(flaw) = strange_flaw(code) {
        return push_report(alloc, reports, n, line, flaw);
    }
    let parts = parts_of(alloc, code)?;
    let (labels, said) = split_labels(parts.as_slice());
    add_said(alloc, names, reports, n, line, labels, said)
}

// What is wrong after the labels of line n.
fn add_said<'a>(
    alloc: Global,
    names: &Names<'_, 'a>,
    reports: &mut Vec<Report<'a>>,
    n: u64,
    line: &'a [u8],
    labels: &[Part<'a>],
    said: &[Part<'a>],
) -> Result<(), AllocError>
    ensures { let known = names_by names.now.constants.now names.now.firsts.now in
        let more = map (report_at n line.now) (said_flaws known labels.now said.now) in
        OnOk result (map report_of reports.new.items ≡ map report_of reports.old.items ++ more) }
{
    let Some((word, operands)) = said.split_first() else {
        return Ok(());
    };
    let text = word.text.bytes();
    if text == b"SET".as_slice() {
        return Ok(());
    }
    if text == b"DS".as_slice() {
        return add_flaw(alloc, reports, n, line, string_flaw(labels, word, operands));
    }
    add_operands(alloc, names, reports, n, line, operands)
}

// This one thing, where something is wrong.
fn add_flaw<'a>(
    alloc: Global,
    reports: &mut Vec<Report<'a>>,
    n: u64,
    line: &'a [u8],
    flaw: Option<Flaw<'a>>,
) -> Result<(), AllocError>
    ensures { let more = map (report_at n line.now) (one_flaw flaw.entry) in
        OnOk result (map report_of reports.new.items ≡ map report_of reports.old.items ++ more) }
{
    match flaw {
        Some(flaw) => push_report(alloc, reports, n, line, flaw),
        None => Ok(()),
    }
}

// What is wrong in operands.
fn add_operands<'a>(
    alloc: Global,
    names: &Names<'_, 'a>,
    reports: &mut Vec<Report<'a>>,
    n: u64,
    line: &'a [u8],
    operands: &[Part<'a>],
) -> Result<(), AllocError>
    ensures { let known = names_by names.now.constants.now names.now.firsts.now in
        let more = map (report_at n line.now) (operand_flaws known operands.now) in
        OnOk result (map report_of reports.new.items ≡ map report_of reports.old.items ++ more) }
{
    for part in operands {
        add_flaw(alloc, reports, n, line, operand_of(names, part).err())?;
    }
    Ok(())
}
