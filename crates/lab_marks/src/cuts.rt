// Where lines are cut.
ghost use Rattle.std.specs.Prelude.{◌≡◌, ◌==◌, ◌≤◌, ◌||◌, length, not, option_map};
ghost use Rattle.std.specs.List.{position, position_or_len};
ghost use Rattle.lab_marks.specs.Cuts.{cut, is_gap};

use crate::tokens::without_blanks;

/// What is before the first byte that is this one, and what is after it; `None` exactly where no byte is.
pub fn cut(byte: u8, text: &[u8]) -> Option<(&[u8], &[u8])>
    ensures { option_map (λ x. (x.0.now, x.1.now)) result ≡ cut byte text.now }
{
    match place_of(byte, text) {
        Some(end) => Some((&text[..end], &text[end + 1..])),
        None => None,
    }
}

fn place_of(byte: u8, text: &[u8]) -> Option<usize>
    ensures { result ≡ position (λ c. c == byte) text.now }
{
    text.iter().position(|c| *c == byte)
}

/// The first field of a text, and what comes after it; `None` where there is none. Blanks, tabs and line ends are between fields.
pub fn next_field(text: &[u8]) -> Option<(&[u8], &[u8])> {
    let (_, text) = text.split_at(first_of_field(text)?);
    Some(text.split_at(field_end(text)))
}

// Where the first field begins.
fn first_of_field(text: &[u8]) -> Option<usize>
    ensures { result ≡ position (λ c. not (is_gap c)) text.now }
{
    text.iter().position(|c| !is_gap(*c))
}

// How many bytes there are before the end of the field with which a text begins.
#[tactic(auto, using(crate::proofs::Places::places))]
fn field_end(text: &[u8]) -> usize
    ensures value { result ≡ position_or_len is_gap text.now }
    ensures inside { result ≤ length text.now }
{
    first_gap(text).unwrap_or(text.len())
}

fn first_gap(text: &[u8]) -> Option<usize>
    ensures { result ≡ position is_gap text.now }
{
    text.iter().position(|c| is_gap(*c))
}

fn is_gap(byte: u8) -> bool
    ensures { result ≡ is_gap byte }
{
    matches!(byte, b' ' | b'\t' | b'\n')
}

/// The first field of a text, or nothing where there is none.
pub fn first_field(text: &[u8]) -> &[u8] {
    match next_field(text) {
        Some((field, _)) => field,
        None => &[],
    }
}

/// The fields of a text that has two.
pub fn two_fields(text: &[u8]) -> Option<(&[u8], &[u8])> {
    let (first, rest) = next_field(text)?;
    let (second, rest) = next_field(rest)?;
    if next_field(rest).is_some() {
        return None;
    }
    Some((first, second))
}

/// The fields of a text that has three.
pub fn three_fields(text: &[u8]) -> Option<(&[u8], &[u8], &[u8])> {
    let (first, rest) = next_field(text)?;
    let (second, third) = two_fields(rest)?;
    Some((first, second, third))
}

/// What comes after the word with which a line begins, and after the blanks there.
pub fn after_word(line: &[u8]) -> &[u8] {
    match cut(b' ', without_blanks(line)) {
        Some((_, rest)) => without_blanks(rest),
        None => &[],
    }
}
