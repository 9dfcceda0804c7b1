// What is said of parts that are no number, or no label.
ghost use Rattle.std.specs.Prelude.{◌≡◌, ◌++◌, OnOk};
ghost use Rattle.std.specs.Char.{is_ascii_alphanumeric, is_ascii_digit, is_ascii_hexdigit};
ghost use Rattle.std.specs.List.{list_all};
ghost use Rattle.module_text.specs.TextReader.Numbers.{number_in};
ghost use Rattle.assembly_errors.specs.NumberWords.{after_hex_mark, are_digits, are_hex_digits, begins_with_digit, hex_digits, hex_text, is_number_part, is_number_text, is_word, known_hex_text, no_label_text, no_number_text, no_word_text, s_form_of, sign_of, unsigned_part};

use assembly::assembly_text::numbers::number;
use module_text::text_reader::digit;
use std::alloc::AllocError;
use tool_texts::Said::{Bytes, Number};
use tool_texts::{Lent, push_sentence};

/// Whether a part is a number.
#[tactic(auto, unfolding(crate::specs::NumberWords::is_number_part))]
pub fn is_number_part(part: &[u8]) -> bool
    ensures { result ≡ is_number_part part.now }
{
    number(part).is_some()
}

/// A part without its minus.
pub fn unsigned_part(part: &[u8]) -> &[u8]
    ensures { result.now ≡ unsigned_part part.now }
{
    match part.split_first() {
        None => part,
        Some((first, rest)) => {
            if *first == b'-' {
                return rest;
            }
            part
        }
    }
}

/// Adds why a part is no number.
#[tactic(auto, unfolding(crate::specs::NumberWords::no_number_text))]
pub fn push_no_number(words: &mut Vec<u8>, part: &[u8]) -> Result<(), AllocError>
    ensures { OnOk result (words.new.items ≡ words.old.items ++ no_number_text part.now) }
{
    let digits = unsigned_part(part);
    if are_digits(digits) {
        return push_sentence(
            words,
            &[
                Bytes(b"a number has at most 10 digits, and "),
                Bytes(part),
                Bytes(b" has "),
                Number(digits.len() as u64),
            ],
        );
    }
    match hex_digits(digits) {
        Some(hex) => push_hex(words, part, hex.bytes()),
        None => push_sentence(
            words,
            &[
                Bytes(part),
                Bytes(b" is no number: that is decimal digits, which may follow a -"),
            ],
        ),
    }
}

fn are_digits(digits: &[u8]) -> bool
    ensures { result ≡ are_digits digits.now }
{
    !digits.is_empty() && all_digits(digits)
}

fn all_digits(digits: &[u8]) -> bool
    ensures { result ≡ list_all is_ascii_digit digits.now }
{
    digits.iter().all(|c| c.is_ascii_digit())
}

// The hex digits after `0x` or `$`.
fn hex_digits(part: &[u8]) -> Option<Lent<'_>>
    ensures { result ≡ hex_digits part.now }
{
    let digits = after_hex_mark(part);
    if digits.len() < part.len() && are_hex_digits(digits) {
        return Some(Lent::new(digits));
    }
    None
}

// What follows `0x` or `$`, or all.
fn after_hex_mark(part: &[u8]) -> &[u8]
    ensures { result.now ≡ after_hex_mark part.now }
{
    if part.starts_with(b"0x") || part.starts_with(b"0X") {
        return part.split_at(2).1;
    }
    if part.starts_with(b"$") {
        return part.split_at(1).1;
    }
    part
}

fn are_hex_digits(digits: &[u8]) -> bool
    ensures { result ≡ are_hex_digits digits.now }
{
    !digits.is_empty() && all_hex_digits(digits)
}

fn all_hex_digits(digits: &[u8]) -> bool
    ensures { result ≡ list_all is_ascii_hexdigit digits.now }
{
    digits.iter().all(|c| c.is_ascii_hexdigit())
}

// Adds what a part is whose hex digits these are.
fn push_hex(words: &mut Vec<u8>, part: &[u8], hex: &[u8]) -> Result<(), AllocError>
    ensures { OnOk result (words.new.items ≡ words.old.items ++ hex_text part.now hex.now) }
{
    match hex_number(hex) {
        None => push_sentence(
            words,
            &[Bytes(b"a number is decimal, and not hex as "), Bytes(part)],
        ),
        Some(n) => push_hex_value(words, part, n),
    }
}

// Adds that a part is this number in hex.
fn push_hex_value(words: &mut Vec<u8>, part: &[u8], n: u64) -> Result<(), AllocError>
    ensures { OnOk result (words.new.items ≡ words.old.items ++ known_hex_text part.now n) }
{
    let sign = sign_of(part);
    let form = s_form_of(part);
    push_sentence(
        words,
        &[
            Bytes(b"a number is decimal: "),
            Bytes(part),
            Bytes(b" is "),
            Bytes(sign),
            Number(n),
            Bytes(form),
        ],
    )
}

// The sign of a part.
fn sign_of(part: &[u8]) -> &'static [u8]
    ensures { result.now ≡ sign_of part.now }
{
    if part.starts_with(b"-") { b"-" } else { b"" }
}

// What a text with more forms may have.
fn s_form_of(part: &[u8]) -> &'static [u8]
    ensures { result.now ≡ s_form_of part.now }
{
    if unsigned_part(part).starts_with(b"0x") {
        b"; a .s text may have it"
    } else {
        b""
    }
}

// The number that 1 to 8 hex digits are.
fn hex_number(digits: &[u8]) -> Option<u64>
    ensures { result ≡ number_in 16 8 digits.now }
{
    if digits.is_empty() || digits.len() > 8 {
        return None;
    }
    let mut value = 0;
    for byte in digits {
        let digit = digit(16, *byte)?;
        value = value * 16 + u64::from(digit);
    }
    Some(value)
}

/// Adds why a part is no label.
#[tactic(auto, unfolding(crate::specs::NumberWords::no_label_text))]
pub fn push_no_label(words: &mut Vec<u8>, part: &[u8]) -> Result<(), AllocError>
    ensures { OnOk result (words.new.items ≡ words.old.items ++ no_label_text part.now) }
{
    if is_number_part(part) {
        return push_is_number(words, part);
    }
    push_no_word(words, part)
}

// Adds that a part is a number.
fn push_is_number(words: &mut Vec<u8>, part: &[u8]) -> Result<(), AllocError>
    ensures { OnOk result (words.new.items ≡ words.old.items ++ is_number_text part.now) }
{
    push_sentence(words, &[Bytes(part), Bytes(b" is a number")])
}

// The same, where the part is no number.
fn push_no_word(words: &mut Vec<u8>, part: &[u8]) -> Result<(), AllocError>
    ensures { OnOk result (words.new.items ≡ words.old.items ++ no_word_text part.now) }
{
    if begins_with_digit(part) {
        return push_sentence(
            words,
            &[
                Bytes(b"a label begins with a letter, and "),
                Bytes(part),
                Bytes(b" with a digit"),
            ],
        );
    }
    if is_word(part) {
        return push_sentence(
            words,
            &[
                Bytes(b"a label has at most 16 letters and digits, and "),
                Bytes(part),
                Bytes(b" has "),
                Number(part.len() as u64),
            ],
        );
    }
    push_sentence(
        words,
        &[
            Bytes(b"a label is a letter, and up to 15 letters and digits, and not "),
            Bytes(part),
        ],
    )
}

fn begins_with_digit(part: &[u8]) -> bool
    ensures { result ≡ begins_with_digit part.now }
{
    match part.split_first() {
        None => false,
        Some((first, _)) => first.is_ascii_digit(),
    }
}

// Whether a part is a letter, and letters and digits.
fn is_word(part: &[u8]) -> bool
    ensures { result ≡ is_word part.now }
{
    match part.split_first() {
        None => false,
        Some((first, rest)) => first.is_ascii_alphabetic() && are_letters(rest),
    }
}

fn are_letters(rest: &[u8]) -> bool
    ensures { result ≡ list_all is_ascii_alphanumeric rest.now }
{
    rest.iter().all(|c| c.is_ascii_alphanumeric())
}
