// What is strange in an assembly text that the assembler takes.
#![tactic(auto)]

pub mod flows;
pub mod laws;
pub mod lines;
pub mod named_texts;
pub mod word_labels;

ghost use Rattle.std.specs.Prelude.{◌≡◌, ◌<◌, ◌^◌, length, IfOk};
ghost use Rattle.tool_texts.specs.Told.{told_of};
ghost use Rattle.assembly_notes.specs.Notes.{assembly_notes};

use assembly_errors::findings::find_errors;
use lines::push_notes;
use std::alloc::{AllocError, Global};
use tool_texts::{ToolText, reports_text};

/// What is strange in an assembly text that the assembler takes, in words, up to 20 times; the name is that of the file, or empty. Of a text
/// that is refused nothing is said. Strange is code that runs into data or past its end, and a label at no multiple of 4 where an
/// instruction takes the word at a label.
#[tactic(auto, unfolding(crate::specs::Notes::assembly_notes))]
pub fn assembly_notes(alloc: Global, name: &[u8], text: &[u8]) -> Result<ToolText, AllocError>
    requires { length text.now < 2 ^ 30 }
    ensures { IfOk result (λ t. told_of t ≡ assembly_notes name.now text.now) }
{
    let draft = find_errors(alloc, text)?;
    let mut reports = Vec::new(alloc);
    if draft.found.is_empty() {
        push_notes(alloc, &draft.known.labels, text, &mut reports)?;
    }
    let bytes = reports_text(alloc, name, reports.as_slice())?;
    Ok(ToolText {
        is_wrong: false,
        bytes,
    })
}
