// Numbers, and why something is none.

use module_text::number;
use std::alloc::{AllocError, Global};
use tool_texts::Said::{self, Bytes, Number};
use tool_texts::push_sentence;

/// The most digits of a number.
const MOST_DIGITS: usize = 10;

/// The most hex digits of a word.
const MOST_HEX_DIGITS: usize = 8;

/// Whether all bytes are decimal digits, and there is one.
pub fn is_digits(text: &[u8]) -> bool {
    !text.is_empty() && text.iter().all(|c| c.is_ascii_digit())
}

/// Whether all bytes are hex digits, and there is one.
pub fn is_hex(text: &[u8]) -> bool {
    !text.is_empty() && text.iter().all(|c| c.is_ascii_hexdigit())
}

/// The number that up to 8 hex digits are; `None` exactly where they are not that.
pub fn hex_number(digits: &[u8]) -> Option<u32> {
    if digits.is_empty() || digits.len() > MOST_HEX_DIGITS {
        return None;
    }
    let mut value = 0u32;
    for byte in digits {
        let digit = char::from(*byte).to_digit(16)?;
        value = value.checked_mul(16)?.checked_add(digit)?;
    }
    Some(value)
}

/// Whether it is a number of 1 to 10 digits.
pub fn is_number(text: &[u8]) -> bool {
    number(text).is_some()
}

/// Adds why this is no number.
pub fn push_no_number(words: &mut Vec<u8>, text: &[u8]) -> Result<(), AllocError> {
    if text.is_empty() {
        return push_sentence(words, &[Bytes(b"a number is missing")]);
    }
    if is_digits(text) {
        return push_sentence(
            words,
            &[
                Bytes(b"a number has at most 10 digits, and this one has "),
                Number(text.len() as u64),
            ],
        );
    }
    if let [b'-' | b'+', digits @ ..] = text {
        if is_digits(digits) {
            return push_sentence(words, &[Bytes(b"a number has no sign")]);
        }
    }
    if let Some(value) = prefixed_hex(text) {
        return push_sentence(
            words,
            &[
                Bytes(b"a number is decimal: "),
                Bytes(text),
                Bytes(b" is "),
                Number(u64::from(value)),
            ],
        );
    }
    if has_marks(text) {
        return push_sentence(
            words,
            &[Bytes(b"a number has digits alone, but found "), Bytes(text)],
        );
    }
    push_sentence(
        words,
        &[
            Bytes(text),
            Bytes(b" is no number: that is 1 to 10 decimal digits"),
        ],
    )
}

// The number that hex digits after 0x are.
fn prefixed_hex(text: &[u8]) -> Option<u32> {
    hex_number(after_prefix(text)?)
}

/// What is after `0x` or `0X`; `None` exactly where the text does not begin so.
pub fn after_prefix(text: &[u8]) -> Option<&[u8]> {
    match text {
        [b'0', b'x' | b'X', digits @ ..] => Some(digits),
        _ => None,
    }
}

// Whether it is digits with commas, points or underlines after the first ones.
fn has_marks(text: &[u8]) -> bool {
    text.first().is_some_and(|c| c.is_ascii_digit())
        && text
            .iter()
            .all(|c| c.is_ascii_digit() || matches!(*c, b',' | b'.' | b'_'))
}

/// Why this is no number.
pub fn no_number(alloc: Global, text: &[u8]) -> Result<Vec<u8>, AllocError> {
    let mut words = Vec::new(alloc);
    push_no_number(&mut words, text)?;
    Ok(words)
}

/// So many things of a kind, where the name of one ends with no `s`.
pub fn push_count(words: &mut Vec<u8>, n: u64, one: &[u8]) -> Result<(), AllocError> {
    push_sentence(words, &[Number(n), Bytes(b" "), Bytes(one), plural(n)])
}

fn plural(n: u64) -> Said<'static> {
    if n == 1 { Bytes(b"") } else { Bytes(b"s") }
}

/// The same, as a text of its own.
pub fn counted(alloc: Global, n: u64, one: &[u8]) -> Result<Vec<u8>, AllocError> {
    let mut words = Vec::new(alloc);
    push_count(&mut words, n, one)?;
    Ok(words)
}
