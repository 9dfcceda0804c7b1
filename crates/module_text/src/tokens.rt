// The tokens of a text, and the words that they are.
ghost use Rattle.std.specs.Prelude.{◌≡◌, ◌<◌, ◌≤◌, ◌+◌, length, slice_index, IfSome};
ghost use Rattle.module_text.specs.Tokens.{is_blank};
ghost use Rattle.module_text.specs.Places.{bytes_in, next_span, next_word, token_end, token_start};
ghost use Rattle.module_text.specs.Words.{word_of};

use crate::TextBytes;
use crate::text_reader::digit;

/// The most digits of a word.
const MOST_DIGITS: u32 = 8;

/// A word of a text, and the place after it.
#[derive(Clone, Copy, Debug, PartialEq, Eq)]
pub struct NextWord {
    /// The word.
    pub word: u32,
    /// The place after it.
    pub end: u32,
}

/// The first token of the bytes from place `from` on, as a word, and the place after it. `None` exactly where no token is
/// left from there, or the first one is no word, which is 1 to 8 hex digits of either case.
pub fn next_word<X: TextBytes>(text: &X, from: u32) -> Option<NextWord>
    ensures { result ≡ next_word (X.text text.now) from }
{
    let token = next_span(text, from)?;
    let word = word_in(text, token)?;
    Some(NextWord {
        word,
        end: token.end,
    })
}

/// Where a token is: the place of its first byte, and the place after its last.
#[derive(Clone, Copy)]
pub struct Span {
    /// The place of its first byte.
    pub start: u32,
    /// The place after its last.
    pub end: u32,
}

/// The first token of the bytes from place `from` on; `None` exactly where no token is left.
pub fn next_span<X: TextBytes>(text: &X, from: u32) -> Option<Span>
    ensures place { result ≡ next_span (X.text text.now) from }
    ensures after { IfSome result (λ t. from ≤ t.start) }
    ensures inside { IfSome result (λ t. (t.start < t.end) × (t.end ≤ length (X.text text.now))) }
{
    let start = token_start(text, from);
    if start >= text.len() {
        return None;
    }
    let end = token_end(text, start);
    Some(Span { start, end })
}

// The place of the first byte that is no blank, from place `from` on, or else the text's end.
fn token_start<X: TextBytes>(text: &X, from: u32) -> u32
    ensures { result ≡ token_start (X.text text.now) from }
{
    for place in from..text.len() {
        if !is_blank_at(text, place) {
            return place;
        }
    }
    from.max(text.len())
}

// The place of the first blank, from place `from` on, or else the text's end.
fn token_end<X: TextBytes>(text: &X, from: u32) -> u32
    ensures { result ≡ token_end (X.text text.now) from }
{
    for place in from..text.len() {
        if is_blank_at(text, place) {
            return place;
        }
    }
    from.max(text.len())
}

// Whether the byte at a place separates tokens.
fn is_blank_at<X: TextBytes>(text: &X, place: u32) -> bool
    requires { place < length (X.text text.now) }
    ensures { result ≡ is_blank (slice_index (X.text text.now) place) }
{
    matches!(byte_at(text, place), b' ' | b'\n' | b'\r')
}

// The byte at a place inside.
fn byte_at<X: TextBytes>(text: &X, place: u32) -> u8
    requires { place < length (X.text text.now) }
    ensures { result ≡ slice_index (X.text text.now) place }
{
    text.at(place).unwrap()
}

/// The word that a token is; `None` exactly where it is none.
pub fn word_in<X: TextBytes>(text: &X, token: Span) -> Option<u32>
    requires some { token.start < token.end }
    requires inside { token.end ≤ length (X.text text.now) }
    ensures { result ≡ word_of (bytes_in (X.text text.now) token) }
{
    if token.end - token.start > MOST_DIGITS {
        return None;
    }
    let mut value = 0;
    for place in token.start..token.end {
        let digit = digit(16, byte_at(text, place))?;
        value = value * 16 + digit;
    }
    Some(value)
}
