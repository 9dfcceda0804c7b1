// The lines `let NAME = EXPRESSION`, after which the name has the value.

use crate::cuts::{cut, next_field};
use crate::ends::Hindered;
use crate::expressions::value_of;
use crate::fillings::push_number;
use crate::known::{Known, set};
use crate::tokens::without_blanks;
use std::alloc::{AllocError, Global};
use tool_texts::Said::Bytes;
use tool_texts::{Lent, push_blanks, push_sentence};

/// How wide a name with its value is, where it is told.
const TOLD_WIDTH: usize = 14;

/// What a line `let` says.
#[derive(Drop)]
pub struct Let<'a> {
    /// The name.
    pub name: Lent<'a>,
    /// The expression.
    pub expression: Lent<'a>,
    /// What is told of the value, if something is.
    pub told: Option<Lent<'a>>,
}

/// What a line says whose first word is `let`; `None` where its third word is no `=`.
pub fn let_of(line: &[u8]) -> Option<Let<'_>> {
    let (_, rest) = next_field(line)?;
    let (name, rest) = next_field(rest)?;
    let (sign, _) = next_field(rest)?;
    if sign != b"=".as_slice() {
        return None;
    }
    let (_, said) = cut(b'=', line)?;
    let said = without_blanks(said);
    let (expression, told) = match cut(b';', said) {
        Some((expression, told)) => (expression, Some(Lent::new(without_blanks(told)))),
        None => (said, None),
    };
    Some(Let {
        name: Lent::new(name),
        expression: Lent::new(expression),
        told,
    })
}

/// Gives the name its value, and adds what is told of it.
pub fn obey_let<'a>(
    alloc: Global,
    known: &mut Known<'a>,
    told: &mut Vec<Vec<u8>>,
    line: &Let<'a>,
) -> Result<(), Hindered<'a>> {
    let value = value_of(alloc, known, line.expression.bytes())?;
    set(known, line.name.bytes(), value)?;
    if let Some(text) = &line.told {
        told.push(told_text(alloc, line.name.bytes(), value, text.bytes())?)?;
    }
    Ok(())
}

// The name, its value and a text.
fn told_text(alloc: Global, name: &[u8], value: i64, text: &[u8]) -> Result<Vec<u8>, AllocError> {
    let mut told = Vec::new(alloc);
    push_sentence(&mut told, &[Bytes(name), Bytes(b" = ")])?;
    push_number(&mut told, value)?;
    let width = told.len();
    push_blanks(&mut told, TOLD_WIDTH.saturating_sub(width))?;
    told.push(b' ')?;
    told.extend_from_slice(text)?;
    Ok(told)
}
