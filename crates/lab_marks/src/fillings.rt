// Texts with values in the place of expressions in braces.
ghost use Rattle.std.specs.Prelude.{◌≡◌, ◌++◌, codes, Ok, OnOk};
ghost use Rattle.lab_marks.specs.Ends.{Gives};
ghost use Rattle.lab_marks.specs.Fillings.{braced, byte_of, character, filled, filling_kept, is_interval, is_last, number, number_text, with_braces};
ghost use Rattle.lab_marks.specs.Known.{kept};

use crate::cuts::cut;
use crate::ends::Hindered;
use crate::expressions::value_of;
use crate::known::Known;
use crate::tokens::digits_end;
use crate::wrongs::Wrong;
use module_text::after_word;
use std::alloc::{AllocError, Global};
use tool_texts::Said::{Bytes, Number};
use tool_texts::{Lent, push_sentence};

/// A text that is filled so far.
#[derive(Drop)]
pub struct Filling<'a> {
    /// What is made of it.
    pub made: Vec<u8>,
    /// The rest.
    pub rest: Lent<'a>,
}

/// A text with the values of its `{EXPRESSION}`s, and the bytes with these codes in the place of its `{c EXPRESSION}`s. In a pattern
/// numbers alone in braces, as `{2}` and `{2,3}`, stay.
pub fn filled<'a>(
    alloc: Global,
    known: &Known<'a>,
    is_pattern: bool,
    text: &'a [u8],
) -> Result<Vec<u8>, Hindered<'a>>
    ensures { Gives (λ v. v.items) result (filled (kept known.now) is_pattern text.now) }
{
    let mut filling = Filling {
        made: Vec::new(alloc),
        rest: Lent::new(text),
    };
    for done in 0..text.len() {
        let Some((before, others)) = cut(b'{', filling.rest.bytes()) else {
            return whole(filling);
        };
        filling = with_braces(alloc, known, is_pattern, filling.made, before, others)?;
    }
    whole(filling)
}

// A text whose rest has no braces.
fn whole<'a>(filling: Filling<'_>) -> Result<Vec<u8>, Hindered<'a>>
    ensures { let all = filling.entry.made.items ++ filling.entry.rest in
        Gives (λ v. v.items) result (Ok all) }
{
    let Filling { made, rest } = filling;
    let mut made = made;
    made.extend_from_slice(rest.bytes())?;
    Ok(made)
}

// A text, with the one before a `{` and with what comes in the place of the braces, and what comes after the `}`.
fn with_braces<'a>(
    alloc: Global,
    known: &Known<'a>,
    is_pattern: bool,
    made: Vec<u8>,
    before: &'a [u8],
    others: &'a [u8],
) -> Result<Filling<'a>, Hindered<'a>>
    ensures { let all = with_braces (kept known.now) is_pattern made.items before.now others.now in
        Gives filling_kept result all }
{
    let Some((inner, rest)) = cut(b'}', others) else {
        return Err(Hindered::Refused(Wrong::OpenBrace));
    };
    let value = braced(alloc, known, is_pattern, inner)?;
    let mut made = made;
    made.extend_from_slice(before)?;
    made.extend_from_slice(&value)?;
    let rest = Lent::new(rest);
    Ok(Filling { made, rest })
}

// What comes in the place of braces around this.
fn braced<'a>(
    alloc: Global,
    known: &Known<'a>,
    is_pattern: bool,
    inner: &'a [u8],
) -> Result<Vec<u8>, Hindered<'a>>
    ensures { Gives (λ v. v.items) result (braced (kept known.now) is_pattern inner.now) }
{
    if is_pattern && is_interval(inner) {
        return in_braces(alloc, inner);
    }
    match after_word(b"c ", inner) {
        Some(expression) => character(alloc, known, expression),
        None => number(alloc, known, inner),
    }
}

// A text in braces.
fn in_braces<'a>(alloc: Global, inner: &[u8]) -> Result<Vec<u8>, Hindered<'a>>
    ensures { let all = codes "{" ++ inner.now ++ codes "}" in Gives (λ v. v.items) result (Ok all) }
{
    let mut text = Vec::new(alloc);
    push_sentence(&mut text, &[Bytes(b"{"), Bytes(inner), Bytes(b"}")])?;
    Ok(text)
}

// The character whose code is the worth of an expression.
fn character<'a>(
    alloc: Global,
    known: &Known<'a>,
    expression: &'a [u8],
) -> Result<Vec<u8>, Hindered<'a>>
    ensures { Gives (λ v. v.items) result (character (kept known.now) expression.now) }
{
    let code = value_of(alloc, known, expression)?;
    let mut text = Vec::new(alloc);
    text.push(byte_of(code))?;
    Ok(text)
}

// What an expression is worth, in decimal.
fn number<'a>(
    alloc: Global,
    known: &Known<'a>,
    expression: &'a [u8],
) -> Result<Vec<u8>, Hindered<'a>>
    ensures { Gives (λ v. v.items) result (number (kept known.now) expression.now) }
{
    let value = value_of(alloc, known, expression)?;
    let mut text = Vec::new(alloc);
    push_number(&mut text, value)?;
    Ok(text)
}

/// Adds a value in decimal.
pub fn push_number(text: &mut Vec<u8>, value: i64) -> Result<(), AllocError>
    ensures { OnOk result (text.new.items ≡ text.old.items ++ number_text value) }
{
    if value < 0 {
        return push_sentence(text, &[Bytes(b"-"), Number(value.unsigned_abs())]);
    }
    push_sentence(text, &[Number(value.unsigned_abs())])
}

// The byte with this code, modulo 256.
fn byte_of(code: i64) -> u8
    ensures { result ≡ byte_of code }
{
    (code.cast_unsigned() % 256) as u8
}

// Whether this is how often something comes in a pattern: a number, or one with a comma after it, and perhaps another one after that.
fn is_interval(text: &[u8]) -> bool
    ensures { result ≡ is_interval text.now }
{
    let end = digits_end(text);
    if end == 0 {
        return false;
    }
    is_last(text.split_at(end).1)
}

// Whether what comes after the first number of an interval is nothing, or a comma and perhaps another number.
fn is_last(text: &[u8]) -> bool
    ensures { result ≡ is_last text.now }
{
    match text.split_first() {
        Some((comma, last)) => *comma == b',' && digits_end(last) == last.len(),
        None => true,
    }
}
