// What is wrong in an assembly text, in words.
#![tactic(auto)]

pub mod byte_words;
pub mod drafts;
pub mod findings;
pub mod form_words;
pub mod hints;
pub mod laws;
pub mod leads;
pub mod likeness;
pub mod name_words;
pub mod number_words;
pub mod operand_words;
pub mod parts;
pub mod reach_words;
pub mod remarks;
pub mod reports;
pub mod takes;

ghost use Rattle.std.specs.Prelude.{◌≡◌, ◌<◌, ◌^◌, length, IfOk};
ghost use Rattle.tool_texts.specs.Told.{told_of};
ghost use Rattle.assembly_errors.specs.Reports.{assembly_errors};

use findings::find_errors;
use reports::make_reports;
use std::alloc::{AllocError, Global};
use tool_texts::{ToolText, reports_text};

/// What is wrong in an assembly text: of each line in error, up to 20, what is there and what was expected, with the code of the
/// assembler's refusal; the name is that of the file, or empty. By `refusal_law` the first is the line at which the assembler refuses the
/// text, and nothing is wrong exactly where it takes it.
pub fn assembly_errors(alloc: Global, name: &[u8], text: &[u8]) -> Result<ToolText, AllocError>
    requires { length text.now < 2 ^ 30 }
    ensures { IfOk result (λ t. told_of t ≡ assembly_errors name.now text.now) }
{
    let draft = find_errors(alloc, text)?;
    let reports = make_reports(alloc, &draft)?;
    let bytes = reports_text(alloc, name, reports.as_slice())?;
    Ok(ToolText {
        is_wrong: !draft.found.is_empty(),
        bytes,
    })
}
