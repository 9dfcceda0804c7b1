// What is wrong in a bundle or its map, in words.
ghost use Rattle.std.specs.Prelude.{◌≡◌};

use crate::reading::CUT_OFF;
use crate::statements::BAD_NUMBER;
use std::alloc::{AllocError, Global};
use tool_texts::Said::{Bytes, Number};
use tool_texts::{Lent, Said, ToolText, push_sentence};

/// What is wrong, so that no place is looked for.
#[derive(Drop)]
pub enum Wrong<'a> {
    /// The input is no bundle of a session, a map, lines and places.
    NoBundle,
    /// The map with this path is refused at this line, with this code.
    BadMap {
        path: Lent<'a>,
        line: u32,
        code: u32,
    },
}

/// What a tool gives where this is wrong: a line with a status, and one with words.
pub fn wrong_text(alloc: Global, wrong: Wrong) -> Result<ToolText, AllocError> {
    let mut bytes = Vec::new(alloc);
    match wrong {
        Wrong::NoBundle => push_sentence(
            &mut bytes,
            &[Bytes(
                b"* 2\nwhere: the input is no bundle of a session, its map, lines and places\n",
            )],
        )?,
        Wrong::BadMap { path, line, code } => push_bad_map(&mut bytes, path.bytes(), line, code)?,
    }
    Ok(ToolText {
        is_wrong: true,
        bytes,
    })
}

// What is wrong in a map.
fn push_bad_map(text: &mut Vec<u8>, path: &[u8], line: u32, code: u32) -> Result<(), AllocError> {
    push_sentence(
        text,
        &[
            Bytes(b"* 3\nwhere: "),
            Bytes(path),
            Bytes(b":"),
            Number(u64::from(line)),
            Bytes(b": "),
            Bytes(map_words(code)),
            Bytes(b" (code "),
            Number(u64::from(code)),
            Bytes(b")\n"),
        ],
    )
}

fn map_words(code: u32) -> &'static [u8] {
    match code {
        BAD_NUMBER => b"a number is out of its range",
        CUT_OFF => b"the map is cut off in this line",
        _ => b"a map has no such line here",
    }
}
