// Lines with a name, and what is said of them.
ghost use Rattle.std.specs.Prelude.{◌≡◌, ◌++◌, ◌∷◌, [], map, OnOk};
ghost use Rattle.std.specs.List.{flat_map};
ghost use Rattle.tool_texts.specs.Reports.{report_of};
ghost use Rattle.tool_texts.specs.Sentences.{text_of};
ghost use Rattle.assembly_notes.specs.NamedTexts.{note};

use std::alloc::{AllocError, Global};
use tool_texts::{Lent, Report, Said, push_sentence};

/// A line with a name.
#[derive(Drop)]
pub struct NamedText<'a> {
    /// Its number, from 1.
    pub number: u64,
    /// The line.
    pub text: Lent<'a>,
    /// The name of its instruction or directive.
    pub name: Lent<'a>,
    /// The column of the name, from 1.
    pub column: usize,
}

/// Adds what is said of a column of a line.
pub fn push_note<'a>(
    alloc: Global,
    line: &NamedText<'a>,
    column: usize,
    parts: &[Said],
    reports: &mut Vec<Report<'a>>,
) -> Result<(), AllocError>
    ensures { OnOk result (map report_of reports.new.items
        ≡ map report_of reports.old.items ++ note line.now column (flat_map text_of parts.now) ∷ []) }
{
    let mut words = Vec::new(alloc);
    push_sentence(&mut words, parts)?;
    reports.push(Report {
        line: line.number,
        column,
        text: line.text.bytes(),
        words,
        code: 0,
    })?;
    Ok(())
}
