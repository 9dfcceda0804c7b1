// What the words say.
ghost use Rattle.std.specs.Prelude.{◌≡◌, ◌++◌, OnOk};
ghost use Rattle.show_run.specs.TypedWords.ShownBytes.{shown, shown_byte};

use log_words::bytes::hex_digits;
use std::alloc::AllocError;
use tool_texts::Said::Bytes;
use tool_texts::{Said, push_sentence};

/// Adds a line that the debugger says of itself.
pub fn push_said(text: &mut Vec<u8>, parts: &[Said]) -> Result<(), AllocError> {
    push_sentence(text, &[Bytes(b"debug: ")])?;
    push_sentence(text, parts)?;
    push_sentence(text, &[Bytes(b"\n")])
}

/// Adds bytes as they are shown: a byte that is no text, no tab and no line end as `\x07`.
pub fn push_shown(text: &mut Vec<u8>, bytes: &[u8]) -> Result<(), AllocError>
    ensures { OnOk result (text.new.items ≡ text.old.items ++ shown bytes.now) }
{
    for byte in bytes {
        push_byte(text, *byte)?;
    }
    Ok(())
}

fn push_byte(text: &mut Vec<u8>, byte: u8) -> Result<(), AllocError>
    ensures { OnOk result (text.new.items ≡ text.old.items ++ shown_byte byte) }
{
    match byte {
        b'\t' | b'\n' | b' '..=b'~' => push_sentence(text, &[Bytes(&[byte])]),
        _ => push_sentence(text, &[Bytes(b"\\x"), Bytes(&hex_digits(byte))]),
    }
}
