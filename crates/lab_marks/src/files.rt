// A file of a lab with the values of a number. A line of assembly whose comment begins with `{EXPRESSION}` has that as its number.

use crate::cuts::cut;
use crate::ends::Hindered;
use crate::expressions::value_of;
use crate::fillings::push_number;
use crate::known::Known;
use crate::marks::without_last_end;
use crate::stops::{Stop, stop_at};
use crate::tokens::{digits_end, without_blanks};
use std::alloc::{AllocError, Global};
use tool_texts::Said::Bytes;
use tool_texts::{Lent, push_blanks, push_sentence};

/// A line whose comment begins with an expression in braces.
#[derive(Drop)]
pub struct Valued<'a> {
    /// What is before the comment.
    pub code: Lent<'a>,
    /// How many blanks are before the braces.
    pub blanks: usize,
    /// The expression.
    pub expression: Lent<'a>,
    /// What is after the braces.
    pub rest: Lent<'a>,
}

/// The file at this path with its values. The braces of the comments stay, or go.
pub fn file_with_values<'a>(
    alloc: Global,
    known: &Known<'a>,
    keeps_braces: bool,
    path: &'a [u8],
    text: &'a [u8],
) -> Result<Vec<u8>, Stop<'a>> {
    let mut made = Vec::new(alloc);
    if text.is_empty() {
        return Ok(made);
    }
    let mut n = 0u64;
    for line in without_last_end(text).split(|c| *c == b'\n') {
        n = n.saturating_add(1);
        if let Err(hindered) = push_line(alloc, &mut made, known, keeps_braces, line) {
            return Err(stop_at(path, n, hindered));
        }
    }
    Ok(made)
}

// Adds a line with its value, if it has one.
fn push_line<'a>(
    alloc: Global,
    made: &mut Vec<u8>,
    known: &Known<'a>,
    keeps_braces: bool,
    line: &'a [u8],
) -> Result<(), Hindered<'a>> {
    match valued_line(line) {
        Some(valued) => {
            push_code(alloc, made, known, &valued)?;
            Ok(push_comment(made, keeps_braces, &valued)?)
        }
        None => Ok(push_sentence(made, &[Bytes(line), Bytes(b"\n")])?),
    }
}

// The parts of a line whose comment begins with an expression; `None` where it has none.
fn valued_line(line: &[u8]) -> Option<Valued<'_>> {
    for place in 0..line.len() {
        let (code, comment) = line.split_at(place);
        if let Some((blanks, expression, rest)) = valued_comment(comment) {
            return Some(Valued {
                code: Lent::new(code),
                blanks,
                expression: Lent::new(expression),
                rest: Lent::new(rest),
            });
        }
    }
    None
}

// How many blanks are before the braces of a comment, what is in them, and what comes after them.
fn valued_comment(comment: &[u8]) -> Option<(usize, &[u8], &[u8])> {
    let said = comment.strip_prefix(b";")?;
    let bare = without_blanks(said);
    let (expression, rest) = cut(b'}', bare.strip_prefix(b"{")?)?;
    Some((said.len().saturating_sub(bare.len()), expression, rest))
}

// Adds what is before the comment, with the value in the place of its last number. What comes after the number keeps its place, where
// there is room.
fn push_code<'a>(
    alloc: Global,
    made: &mut Vec<u8>,
    known: &Known<'a>,
    valued: &Valued<'a>,
) -> Result<(), Hindered<'a>> {
    let code = valued.code.bytes();
    let Some((before, number)) = last_number(code) else {
        made.extend_from_slice(code)?;
        return Ok(());
    };
    let value = value_of(alloc, known, valued.expression.bytes())?;
    let text = number_and_rest(alloc, value, number)?;
    made.extend_from_slice(before)?;
    made.extend_from_slice(&text)?;
    push_blanks(made, number.len().saturating_sub(text.len()))?;
    Ok(())
}

// The value, and what comes after the number that it replaces.
fn number_and_rest(alloc: Global, value: i64, number: &[u8]) -> Result<Vec<u8>, AllocError> {
    let mut text = Vec::new(alloc);
    push_number(&mut text, value)?;
    let rest = without_blanks(after_number(number).unwrap_or(&[]));
    if !rest.is_empty() {
        push_sentence(&mut text, &[Bytes(b" "), Bytes(rest)])?;
    }
    Ok(text)
}

// What is before the last number of a line, and the line from that on. A blank is before a number, and a blank or nothing after it.
fn last_number(code: &[u8]) -> Option<(&[u8], &[u8])> {
    let mut found = None;
    for place in 0..code.len() {
        if code[place] == b' ' {
            let (before, number) = code.split_at(place + 1);
            if after_number(number).is_some() {
                found = Some((before, number));
            }
        }
    }
    found
}

// What comes after the number with which a text begins: a blank, or nothing. `None` where it begins with none.
fn after_number(text: &[u8]) -> Option<&[u8]> {
    let digits = text.strip_prefix(b"-").unwrap_or(text);
    let (number, rest) = digits.split_at(digits_end(digits));
    if number.is_empty() || !(rest.is_empty() || rest.starts_with(b" ")) {
        return None;
    }
    Some(rest)
}

// Adds the comment, and the end of the line.
fn push_comment(
    made: &mut Vec<u8>,
    keeps_braces: bool,
    valued: &Valued<'_>,
) -> Result<(), AllocError> {
    let expression = valued.expression.bytes();
    push_sentence(made, &[Bytes(b";")])?;
    push_blanks(made, valued.blanks)?;
    if keeps_braces {
        push_sentence(made, &[Bytes(b"{"), Bytes(expression), Bytes(b"}")])?;
    } else {
        push_sentence(made, &[Bytes(expression)])?;
    }
    push_sentence(made, &[Bytes(valued.rest.bytes()), Bytes(b"\n")])
}
