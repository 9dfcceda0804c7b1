// Bytes and numbers as the log writes them.
ghost use Rattle.std.specs.Prelude.{◌≡◌, ◌∷◌, []};
ghost use Rattle.hex.specs.Hex.{encode_lower};

use hex;
use module_text::number;
use std::alloc::AllocError;
use tool_texts::Said::{Bytes, Number};
use tool_texts::{push_blanks, push_sentence};

/// Adds a byte as it is shown between quotes.
pub fn push_shown_byte(text: &mut Vec<u8>, byte: u8) -> Result<(), AllocError> {
    match byte {
        b'\n' => push_sentence(text, &[Bytes(b"\\n")]),
        b'"' => push_sentence(text, &[Bytes(b"\\\"")]),
        b'\\' => push_sentence(text, &[Bytes(b"\\\\")]),
        b' '..=b'~' => push_sentence(text, &[Bytes(&[byte])]),
        _ => push_sentence(text, &[Bytes(b"\\x"), Bytes(&hex_digits(byte))]),
    }
}

/// The two hex digits of a byte, in lower case.
pub fn hex_digits(byte: u8) -> [u8; 2]
    ensures { result ≡ encode_lower (byte ∷ []) }
{
    let mut digits = [0u8; 2];
    hex::encode_to_slice([byte], &mut digits).unwrap();
    digits
}

/// Adds a signed number.
pub fn push_signed(text: &mut Vec<u8>, number: i64) -> Result<(), AllocError> {
    if number < 0 {
        push_sentence(text, &[Bytes(b"-")])?;
    }
    push_sentence(text, &[Number(number.unsigned_abs())])
}

/// Adds a number after blanks, up to so many bytes with these.
pub fn push_padded(text: &mut Vec<u8>, number: u64, width: usize) -> Result<(), AllocError> {
    push_blanks(text, width.saturating_sub(digit_count(number)))?;
    push_sentence(text, &[Number(number)])
}

// How many digits a number has.
fn digit_count(number: u64) -> usize {
    match number.checked_ilog10() {
        Some(log) => (log as usize).saturating_add(1),
        None => 1,
    }
}

/// The signed number that digits are, after a minus if there is one; `None` where they are none.
pub fn signed_number(text: &[u8]) -> Option<i64> {
    match text.strip_prefix(b"-") {
        Some(digits) => Some(0i64.saturating_sub(i64::try_from(number(digits)?).ok()?)),
        None => i64::try_from(number(text)?).ok(),
    }
}

/// What comes before and after the first time that a text is in another; `None` where it is not in it.
pub fn split_at_text<'a>(text: &'a [u8], part: &[u8]) -> Option<(&'a [u8], &'a [u8])> {
    for i in 0..text.len() {
        let (before, rest) = text.split_at(i);
        if let Some(after) = rest.strip_prefix(part) {
            return Some((before, after));
        }
    }
    None
}

/// What comes before and after the first blank; `None` where there is none.
pub fn split_at_blank(text: &[u8]) -> Option<(&[u8], &[u8])> {
    let end = text.iter().position(|c| *c == b' ')?;
    Some((&text[..end], &text[end + 1..]))
}
