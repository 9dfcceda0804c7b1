// Parts of a text.
ghost use Rattle.std.specs.Prelude.{◌≡◌, ◌==◌, ◌≤◌, not, length, option_map, IfSome};
ghost use Rattle.std.specs.Char.{is_ascii_digit};
ghost use Rattle.std.specs.List.{position};
ghost use Rattle.run_pictures.specs.Letters.{letters, without_blanks, without_last_blanks};
ghost use Rattle.run_pictures.specs.Texts.{digits_end, field_end, field_of, leading_number, next_field};

use module_text::number;

/// What is before the first place of a word, and what is after it; `None` exactly where the word is not in the text.
pub fn split_once<'t>(word: &[u8], text: &'t [u8]) -> Option<(&'t [u8], &'t [u8])> {
    for place in 0..text.len() {
        let (before, rest) = text.split_at(place);
        if let Some(after) = rest.strip_prefix(word) {
            return Some((before, after));
        }
    }
    None
}

/// The same for the last place of the word.
pub fn split_last<'t>(word: &[u8], text: &'t [u8]) -> Option<(&'t [u8], &'t [u8])> {
    let mut found = None;
    for place in 0..text.len() {
        let (before, rest) = text.split_at(place);
        if let Some(after) = rest.strip_prefix(word) {
            found = Some((before, after));
        }
    }
    found
}

/// Whether a word is in a text.
pub fn contains(word: &[u8], text: &[u8]) -> bool {
    split_once(word, text).is_some()
}

/// What is before the first place of a word, or all of the text where the word is not there.
pub fn up_to<'t>(word: &[u8], text: &'t [u8]) -> &'t [u8] {
    match split_once(word, text) {
        Some((before, _)) => before,
        None => text,
    }
}

/// A text without the blanks that it begins with.
pub fn without_blanks(text: &[u8]) -> &[u8]
    ensures value { result.now ≡ without_blanks text.now }
    ensures letters { letters result.now ≡ letters text.now }
    ensures length { length result.now ≤ length text.now }
{
    let mut rest = text;
    while let Some((first, others)) = rest.split_first() {
        if *first != b' ' {
            return rest;
        }
        rest = others;
    }
    rest
}

/// A text without the blanks that it ends with.
pub fn without_last_blanks(text: &[u8]) -> &[u8]
    ensures value { result.now ≡ without_last_blanks text.now }
    ensures letters { letters result.now ≡ letters text.now }
    ensures length { length result.now ≤ length text.now }
{
    let mut line = text;
    while let Some((last, others)) = line.split_last() {
        if *last != b' ' {
            return line;
        }
        line = others;
    }
    line
}

/// The first field of a line, which has no blanks, and what comes after it; `None` exactly where there are only blanks.
pub fn next_field(line: &[u8]) -> Option<(&[u8], &[u8])>
    ensures { option_map (λ x. (x.0.now, x.1.now)) result ≡ next_field line.now }
{
    field_of(without_blanks(line))
}

// The same, of a line that does not begin with a blank.
fn field_of(line: &[u8]) -> Option<(&[u8], &[u8])>
    ensures { option_map (λ x. (x.0.now, x.1.now)) result ≡ field_of line.now }
{
    if line.is_empty() {
        return None;
    }
    Some(line.split_at(field_end(line)))
}

// How many bytes there are before the first blank.
fn field_end(line: &[u8]) -> usize
    ensures value { result ≡ field_end line.now }
    ensures inside { result ≤ length line.now }
{
    first_blank(line).unwrap_or(line.len())
}

// Where the first blank is.
fn first_blank(line: &[u8]) -> Option<usize>
    ensures value { result ≡ position (λ c. c == 32) line.now }
    ensures inside { IfSome result (λ k. k ≤ length line.now) }
{
    line.iter().position(|c| *c == b' ')
}

/// The number of 1 to 10 digits with which a text begins, and what comes after it; `None` exactly where it begins with none.
pub fn leading_number(text: &[u8]) -> Option<(u64, &[u8])>
    ensures { option_map (λ x. (x.0, x.1.now)) result ≡ leading_number text.now }
{
    let (digits, rest) = text.split_at(digits_end(text));
    let number = number(digits)?;
    Some((number, rest))
}

// How many digits a text begins with.
fn digits_end(text: &[u8]) -> usize
    ensures value { result ≡ digits_end text.now }
    ensures inside { result ≤ length text.now }
{
    first_other(text).unwrap_or(text.len())
}

// Where the first byte is that is no digit.
fn first_other(text: &[u8]) -> Option<usize>
    ensures value { result ≡ position (λ c. not (is_ascii_digit c)) text.now }
    ensures inside { IfSome result (λ k. k ≤ length text.now) }
{
    text.iter().position(|c| !c.is_ascii_digit())
}
