// What is said of the lines in error.
ghost use Rattle.std.specs.Prelude.{◌≡◌, ◌++◌, ◌∷◌, [], map, IfOk, OnOk};
ghost use Rattle.tool_texts.specs.Reports.{report_of};
ghost use Rattle.assembly_errors.specs.Drafts.{draft_of};
ghost use Rattle.assembly_errors.specs.NameWords.{named_line};
ghost use Rattle.assembly_errors.specs.ReachWords.{reach_remark, undefined_remark};
ghost use Rattle.assembly_errors.specs.Remarks.{kept_remark};
ghost use Rattle.assembly_errors.specs.Reports.{error_remark, report_for, reports_of, shown_remark};

use crate::drafts::{Draft, Finding};
use crate::form_words::form_remark;
use crate::name_words::{name_remark, named_line, range_remark};
use crate::reach_words::{length_remark, reach_remark, repeated_remark, undefined_remark};
use crate::remarks::{Remark, make_remark};
use assembly::assembly_text::errors::LineError;
use assembly::assembly_text::parts::without_comment;
use std::alloc::{AllocError, Global};
use tool_texts::Report;

/// The most lines of which something is said.
const MOST_REMARKS: usize = 20;

/// What is said of the lines in error, line by line.
pub fn make_reports<'a>(alloc: Global, draft: &Draft<'a>) -> Result<Vec<Report<'a>>, AllocError>
    ensures { IfOk result (λ v. map report_of v.items ≡ reports_of (draft_of draft.now)) }
{
    let mut reports = Vec::new(alloc);
    for (i, finding) in draft.found.iter().enumerate() {
        push_report(alloc, &mut reports, draft, finding, i < MOST_REMARKS)?;
    }
    Ok(reports)
}

// Adds what is said of a line, if it is shown.
fn push_report<'a>(
    alloc: Global,
    reports: &mut Vec<Report<'a>>,
    draft: &Draft<'a>,
    finding: &Finding<'a>,
    is_shown: bool,
) -> Result<(), AllocError>
    ensures { OnOk result (map report_of reports.new.items
        ≡ map report_of reports.old.items ++ report_for (draft_of draft.now) is_shown finding.now ∷ []) }
{
    let remark = shown_remark(alloc, draft, finding, is_shown)?;
    reports.push(Report {
        line: u64::from(finding.number),
        column: remark.column,
        text: finding.text.bytes(),
        words: remark.words,
        code: finding.error.code(),
    })?;
    Ok(())
}

// What is said of a line, if it is shown.
fn shown_remark(
    alloc: Global,
    draft: &Draft,
    finding: &Finding,
    is_shown: bool,
) -> Result<Remark, AllocError>
    ensures { IfOk result
        (λ r. kept_remark r ≡ shown_remark (draft_of draft.now) is_shown finding.now) }
{
    if is_shown {
        return error_remark(alloc, draft, finding);
    }
    make_remark(alloc, 1, &[])
}

// What is said of a line in error.
#[tactic(auto, unfolding(crate::specs::Reports::error_remark))]
fn error_remark(alloc: Global, draft: &Draft, finding: &Finding) -> Result<Remark, AllocError>
    ensures { IfOk result
        (λ r. kept_remark r ≡ error_remark (draft_of draft.now) finding.now) }
{
    let code = without_comment(finding.text.bytes());
    match finding.error {
        LineError::NoForm => form_remark(alloc, finding.number, code),
        LineError::UnknownName => name_remark(alloc, &named_line(code)),
        LineError::OutOfRange => range_remark(alloc, &named_line(code)),
        LineError::UndefinedLabel => undefined_in(alloc, draft, code),
        LineError::RepeatedLabel => repeated_remark(alloc, draft.definitions.as_slice(), code),
        LineError::OutOfReach => reach_in(alloc, draft, finding.offset, code),
        LineError::HunkTooLong => length_remark(alloc, code),
    }
}

// What is said of a label that is defined nowhere in the text.
fn undefined_in(alloc: Global, draft: &Draft, code: &[u8]) -> Result<Remark, AllocError>
    ensures { IfOk result (λ r. kept_remark r
        ≡ undefined_remark (draft_of draft.now).definitions (named_line code.now)) }
{
    undefined_remark(alloc, draft.definitions.as_slice(), &named_line(code))
}

// What is said of a label out of reach of this offset.
fn reach_in(alloc: Global, draft: &Draft, offset: u32, code: &[u8]) -> Result<Remark, AllocError>
    ensures { IfOk result (λ r. kept_remark r
        ≡ reach_remark (draft_of draft.now).layout.table offset (named_line code.now)) }
{
    reach_remark(alloc, &draft.known.labels, offset, &named_line(code))
}
