// The values that a word is.
ghost use Rattle.std.specs.Prelude.{◌≡◌};
ghost use Rattle.show_run.specs.ValueTries.TryWords.{span_in};

use crate::value_tries::spans::Span;
use crate::value_tries::words::{first_dash, span_in};
use module_text::number;
use std::alloc::{AllocError, Global};

/// What is wrong in a word that is to be values.
#[derive(Clone, Copy)]
pub enum WrongValues<'a> {
    /// It has a byte that no values have, or no byte.
    NoValues,
    /// A value is missing.
    Missing,
    /// This part of it is no value.
    NoValue(&'a [u8]),
    /// In this part of it the last value is less than the first.
    Backwards(&'a [u8]),
}

/// The values that a word is, with commas between them, in their order; or what is wrong first.
pub fn values_in<'a>(
    alloc: Global,
    word: &'a [u8],
) -> Result<Result<Vec<Span>, WrongValues<'a>>, AllocError> {
    if let Some(wrong) = wrong_bytes(word) {
        return Ok(Err(wrong));
    }
    let mut values = Vec::new(alloc);
    for part in word.split(|byte| *byte == b',') {
        match span_in(part) {
            Some(span) => values.push(span)?,
            None => return Ok(Err(wrong_part(part))),
        }
    }
    Ok(Ok(values))
}

// What is wrong in the bytes of a word, before any part is read.
fn wrong_bytes(word: &[u8]) -> Option<WrongValues<'_>> {
    if word.is_empty() || !word.iter().all(|byte| is_in_values(*byte)) {
        return Some(WrongValues::NoValues);
    }
    if word.split(|byte| *byte == b',').any(|part| part.is_empty()) {
        return Some(WrongValues::Missing);
    }
    None
}

fn is_in_values(byte: u8) -> bool {
    byte.is_ascii_digit() || byte == b',' || byte == b'-'
}

// What is wrong in a part that is no value.
fn wrong_part(part: &[u8]) -> WrongValues<'_> {
    if are_two_numbers(part) {
        return WrongValues::Backwards(part);
    }
    WrongValues::NoValue(part)
}

// Whether a part is two numbers with `-` between them.
fn are_two_numbers(part: &[u8]) -> bool {
    match first_dash(part) {
        Some(end) => number(&part[..end]).is_some() && number(&part[end + 1..]).is_some(),
        None => false,
    }
}
