// Where the bytes of each line of an assembly text are.
#![tactic(auto)]

pub mod places;

ghost use Rattle.std.specs.Prelude.{◌≡◌, ◌<◌, ◌^◌, length, IfOk};
ghost use Rattle.tool_texts.specs.Told.{told_of};
ghost use Rattle.assembly_places.specs.Places.{assembly_places};

use assembly_errors::assembly_errors;
use places::places_text;
use std::alloc::{AllocError, Global};
use tool_texts::ToolText;

/// Where the bytes of each line of an assembly text are, in the hunk that the assembler makes of it: a line `OFFSET LINE LABEL` for each line
/// that has a label or gives bytes, with the label that is last up to it, or `-`. Of a text that is refused it is what is wrong.
pub fn assembly_places(alloc: Global, name: &[u8], text: &[u8]) -> Result<ToolText, AllocError>
    requires { length text.now < 2 ^ 30 }
    ensures { IfOk result (λ t. told_of t ≡ assembly_places name.now text.now) }
{
    let told = assembly_errors(alloc, name, text)?;
    if told.is_wrong {
        return Ok(told);
    }
    Ok(ToolText {
        is_wrong: false,
        bytes: places_text(alloc, text)?,
    })
}
