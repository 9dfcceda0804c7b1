// A text in memory, to which what is said is added.
ghost use Rattle.std.specs.Prelude.{◌≡◌, ◌++◌, OnOk};
ghost use Rattle.std.specs.List.{flat_map};
ghost use Rattle.tool_texts.specs.Sentences.{text_of};

use itoa::Buffer;
use std::alloc::AllocError;

/// A part of what is said.
#[derive(Clone, Copy)]
pub enum Said<'a> {
    /// Bytes as they are.
    Bytes(&'a [u8]),
    /// A number in decimal.
    Number(u64),
}

/// Adds what is said to a text, one part after the other.
pub fn push_sentence(text: &mut Vec<u8>, parts: &[Said]) -> Result<(), AllocError>
    ensures { OnOk result (text.new.items ≡ text.old.items ++ flat_map text_of parts.now) }
{
    for part in parts {
        push_part(text, *part)?;
    }
    Ok(())
}

fn push_part(text: &mut Vec<u8>, part: Said) -> Result<(), AllocError>
    ensures { OnOk result (text.new.items ≡ text.old.items ++ text_of part.entry) }
{
    match part {
        Said::Bytes(bytes) => text.extend_from_slice(bytes),
        Said::Number(n) => {
            let mut buffer = Buffer::new();
            text.extend_from_slice(buffer.format(n).as_bytes())
        }
    }
}
