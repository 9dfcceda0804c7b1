// The text of a map, read.
ghost use Rattle.std.specs.Prelude.{◌≡◌, ◌<◌, ◌^◌, length, IfErr};
ghost use Rattle.module_text.specs.TextReader.Answers.{Gives};
ghost use Rattle.program_places.specs.MapOfText.{map_of};
ghost use Rattle.program_places.specs.Refusals.{IsRefusal, is_cut_off};

use crate::drafts::Draft;
use crate::maps::ProgramMap;
use module_text::{TextEnd, split_line};
use std::alloc::Global;

/// The code of the last line, where it has no LF at its end.
pub const CUT_OFF: u32 = 3;

/// What the text of a map says. Its lines are `program NAME FILE`, `hunk NAME WORD..`, `line NAME OFFSET LINE LABEL` and, of a bare machine,
/// `at NAME BYTE`. After `program` comes `hunk` with the same name, and after that the lines with it. A line that is not so is refused:
/// code 1 where it has no such form or another name, or where a program before it, or at the end the last one, has no `hunk`; 2 where a
/// number is out of its range, 3 where the text ends without a LF. `WantMemory` comes only where memory could not be had.
pub fn read_map<'a>(alloc: Global, text: &'a [u8]) -> Result<ProgramMap<'a>, TextEnd>
    requires { length text.now < 2 ^ 32 }
    ensures value { Gives (λ map. map) result (map_of text.now) }
    ensures refused { IfErr result (IsRefusal text.now) }
{
    let mut draft = Draft::new(alloc);
    let mut line_number = 0;
    let mut rest = text;
    while let Some((line, others)) = split_line(rest) {
        line_number += 1;
        draft = draft.with_line(alloc, line_number, line)?;
        rest = others;
    }
    if is_cut_off(text) {
        return Err(TextEnd::Bad {
            line: line_number,
            code: CUT_OFF,
        });
    }
    draft.whole_map(line_number)
}

// Whether a text ends without a LF.
fn is_cut_off(text: &[u8]) -> bool
    ensures { result ≡ is_cut_off text.now }
{
    match text.last() {
        Some(byte) => *byte != b'\n',
        None => false,
    }
}
