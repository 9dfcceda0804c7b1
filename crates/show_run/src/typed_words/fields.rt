// The words of a line, which are between blanks and tabs.

ghost use Rattle.std.specs.Prelude.{◌≡◌, ◌≤◌, ◌<◌, IfSome, length, not, option_map};
ghost use Rattle.std.specs.List.{position};
ghost use Rattle.show_run.specs.TypedWords.Fields.{first_field, is_blank, next_field, second_field, split_word, word_length};

use std::alloc::{AllocError, Global};

/// The first word of a text, and what comes after it; `None` exactly where there is none.
pub fn next_field(text: &[u8]) -> Option<(&[u8], &[u8])>
    ensures { option_map (λ x. (x.0.now, x.1.now)) result ≡ next_field text.now }
{
    let begin = no_blank(text)?;
    Some(split_word(&text[begin..]))
}

// Where the first byte is that is no blank.
fn no_blank(text: &[u8]) -> Option<usize>
    ensures value { result ≡ position (λ c. not (is_blank c)) text.now }
    ensures inside { IfSome result (λ i. i < length text.now) }
{
    text.iter().position(|c| !is_blank(*c))
}

// A text, cut where its first word ends.
fn split_word(text: &[u8]) -> (&[u8], &[u8])
    ensures { (result.0.now, result.1.now) ≡ split_word text.now }
{
    text.split_at(word_length(text))
}

// How many bytes come before the first blank.
fn word_length(text: &[u8]) -> usize
    ensures value { result ≡ word_length text.now }
    ensures inside { result ≤ length text.now }
{
    match first_blank(text) {
        Some(end) => end,
        None => text.len(),
    }
}

// Where the first blank is.
fn first_blank(text: &[u8]) -> Option<usize>
    ensures value { result ≡ position is_blank text.now }
    ensures inside { IfSome result (λ i. i < length text.now) }
{
    text.iter().position(|c| is_blank(*c))
}

/// Whether a byte is between words.
pub fn is_blank(byte: u8) -> bool
    ensures { result ≡ is_blank byte }
{
    byte == b' ' || byte == b'\t'
}

/// The first word, if there is one.
pub fn first_field(text: &[u8]) -> Option<&[u8]>
    ensures { option_map (λ f. f.now) result ≡ first_field text.now }
{
    let (field, _) = next_field(text)?;
    Some(field)
}

/// The second word, if there is one.
pub fn second_field(text: &[u8]) -> Option<&[u8]>
    ensures { option_map (λ f. f.now) result ≡ second_field text.now }
{
    let (_, rest) = next_field(text)?;
    first_field(rest)
}

/// The words of a text with one blank between two.
pub fn joined_fields(alloc: Global, text: &[u8]) -> Result<Vec<u8>, AllocError> {
    let mut joined = Vec::new(alloc);
    let mut is_after_blank = false;
    for byte in text {
        if is_blank(*byte) {
            is_after_blank = !joined.is_empty();
            continue;
        }
        if is_after_blank {
            joined.push(b' ')?;
        }
        is_after_blank = false;
        joined.push(*byte)?;
    }
    Ok(joined)
}

/// A text without the blanks at its ends.
pub fn trimmed(text: &[u8]) -> &[u8] {
    let Some(begin) = text.iter().position(|c| !is_blank(*c)) else {
        return &[];
    };
    let mut rest = &text[begin..];
    while let [others @ .., last] = rest {
        if !is_blank(*last) {
            return rest;
        }
        rest = others;
    }
    rest
}
