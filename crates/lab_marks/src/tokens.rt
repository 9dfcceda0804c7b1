// The tokens of an expression.
ghost use Rattle.std.specs.Prelude.{◌≡◌, ◌≤◌, not, length, option_map};
ghost use Rattle.std.specs.Char.{is_ascii_digit, is_ascii_lowercase};
ghost use Rattle.std.specs.List.{position, position_or_len};
ghost use Rattle.lab_marks.specs.Tokens.{mark_of, next_token, token_at, token_of, without_blanks};

use crate::arithmetic::{By, Sign};
use tool_texts::Lent;

/// A token of an expression.
#[derive(Drop)]
pub enum Token<'a> {
    /// Decimal digits.
    Digits(Lent<'a>),
    /// Small letters.
    Name(Lent<'a>),
    /// A `(`.
    Open,
    /// A `)`.
    Close,
    /// A `+` or a `-`.
    Sign(Sign),
    /// A `*`, a `/` or a `%`.
    By(By),
    /// Any other byte.
    Other,
}

/// A token, and where it is.
#[derive(Drop)]
pub struct Placed<'a> {
    /// The token.
    pub token: Token<'a>,
    /// The text from the token on.
    pub rest: Lent<'a>,
}

/// The first token of a text, and what comes after it; `None` exactly where there are only blanks.
pub fn next_token(text: &[u8]) -> Option<(Placed<'_>, &[u8])>
    ensures { option_map (λ x. (x.0, x.1.now)) result ≡ next_token text.now }
{
    token_of(without_blanks(text))
}

/// A text without the blanks that it begins with.
pub fn without_blanks(text: &[u8]) -> &[u8]
    ensures { result.now ≡ without_blanks text.now }
{
    let mut rest = text;
    while let Some((first, others)) = rest.split_first() {
        if *first != b' ' {
            return rest;
        }
        rest = others;
    }
    rest
}

// The same, of a text that does not begin with a blank.
fn token_of(text: &[u8]) -> Option<(Placed<'_>, &[u8])>
    ensures { option_map (λ x. (x.0, x.1.now)) result ≡ token_of text.now }
{
    let (first, others) = text.split_first()?;
    let (token, after) = token_at(*first, others, text);
    let rest = Lent::new(text);
    Some((Placed { token, rest }, after))
}

// The token with which a text begins, and what comes after it. The text has this byte, and then these others.
fn token_at<'a>(first: u8, others: &'a [u8], text: &'a [u8]) -> (Token<'a>, &'a [u8])
    ensures { (result.0, result.1.now) ≡ token_at first others.now text.now }
{
    if first.is_ascii_digit() {
        let (digits, after) = text.split_at(digits_end(text));
        return (Token::Digits(Lent::new(digits)), after);
    }
    if first.is_ascii_lowercase() {
        let (name, after) = text.split_at(letters_end(text));
        return (Token::Name(Lent::new(name)), after);
    }
    (mark_of(first), others)
}

// The token that one byte is.
fn mark_of<'a>(byte: u8) -> Token<'a>
    ensures { result ≡ mark_of byte }
{
    match byte {
        b'(' => Token::Open,
        b')' => Token::Close,
        b'+' => Token::Sign(Sign::Plus),
        b'-' => Token::Sign(Sign::Minus),
        b'*' => Token::By(By::Times),
        b'/' => Token::By(By::Over),
        b'%' => Token::By(By::Remainder),
        _ => Token::Other,
    }
}

/// How many digits a text begins with.
#[tactic(auto, using(crate::proofs::Places::places))]
pub fn digits_end(text: &[u8]) -> usize
    ensures value { result ≡ position_or_len (λ c. not (is_ascii_digit c)) text.now }
    ensures inside { result ≤ length text.now }
{
    first_no_digit(text).unwrap_or(text.len())
}

fn first_no_digit(text: &[u8]) -> Option<usize>
    ensures { result ≡ position (λ c. not (is_ascii_digit c)) text.now }
{
    text.iter().position(|c| !c.is_ascii_digit())
}

// How many small letters a text begins with.
#[tactic(auto, using(crate::proofs::Places::places))]
fn letters_end(text: &[u8]) -> usize
    ensures value { result ≡ position_or_len (λ c. not (is_ascii_lowercase c)) text.now }
    ensures inside { result ≤ length text.now }
{
    first_no_letter(text).unwrap_or(text.len())
}

fn first_no_letter(text: &[u8]) -> Option<usize>
    ensures { result ≡ position (λ c. not (is_ascii_lowercase c)) text.now }
{
    text.iter().position(|c| !c.is_ascii_lowercase())
}
