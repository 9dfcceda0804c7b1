// What an expression is worth.
ghost use Rattle.std.specs.Prelude.{◌≡◌, [], reverse, None};
ghost use Rattle.lab_marks.specs.declared.tokens.Token.TheVariants.{Open};
ghost use Rattle.lab_marks.specs.Ends.{Gives};
ghost use Rattle.lab_marks.specs.Expressions.{closed, ended, ended_sum, reading_kept, unended, value_of, with_operand, with_operator, with_sum, with_token, with_value};
ghost use Rattle.lab_marks.specs.Known.{kept};

use crate::arithmetic::number_worth;
use crate::ends::Hindered;
use crate::known::{Known, name_worth};
use crate::levels::{Level, start, total, with_by, with_factor, with_sign};
use crate::tokens::{Placed, Token, next_token};
use crate::wrongs::Wrong;
use std::alloc::Global;
use tool_texts::Lent;

/// How far an expression is read.
#[derive(Drop)]
pub struct Reading {
    /// The sum that is read.
    pub level: Level,
    /// The sums around it, each up to a `(`, the nearest last.
    pub outer: Vec<Level>,
    /// Whether a factor is due, and otherwise an operator or a `)`.
    pub due: bool,
}

/// What an expression is worth: a sum of products of numbers, names and sums in parentheses. Or the first thing that is wrong in it.
pub fn value_of<'a>(alloc: Global, known: &Known<'a>, text: &'a [u8]) -> Result<i64, Hindered<'a>>
    ensures { Gives (λ value. value) result (value_of (kept known.now) text.now) }
{
    let mut reading = Reading {
        level: start(),
        outer: Vec::new(alloc),
        due: true,
    };
    let mut rest = text;
    for done in 0..text.len() {
        let Some((placed, others)) = next_token(rest) else {
            return ended(reading);
        };
        reading = with_token(known, text, reading, placed)?;
        rest = others;
    }
    ended(reading)
}

// A token of this text comes next.
fn with_token<'a>(
    known: &Known<'_>,
    text: &'a [u8],
    reading: Reading,
    placed: Placed<'a>,
) -> Result<Reading, Hindered<'a>>
    ensures { Gives reading_kept result
        (with_token (kept known.now) text.now (reading_kept reading) placed.entry) }
{
    let Reading { level, outer, due } = reading;
    let Placed { token, rest } = placed;
    if due {
        with_operand(known, level, outer, rest, token)
    } else {
        with_operator(text, level, outer, token)
    }
}

// A token comes where a factor is due; from it on the text has this rest.
fn with_operand<'a>(
    known: &Known<'_>,
    level: Level,
    outer: Vec<Level>,
    rest: Lent<'a>,
    token: Token<'a>,
) -> Result<Reading, Hindered<'a>>
    ensures { Gives reading_kept result
        (with_operand (kept known.now) level (reverse outer.items) rest.entry token.entry) }
{
    match token {
        Token::Digits(digits) => {
            let value = number_worth(digits.bytes())?;
            with_value(level, outer, value)
        }
        Token::Name(name) => {
            let value = name_worth(known, name)?;
            with_value(level, outer, value)
        }
        Token::Open => opened(level, outer),
        Token::Close | Token::Sign(_) | Token::By(_) | Token::Other => {
            Err(Hindered::Refused(Wrong::NoOperand(rest)))
        }
    }
}

// A factor of this value comes next.
fn with_value<'a>(level: Level, outer: Vec<Level>, value: i64) -> Result<Reading, Hindered<'a>>
    ensures { Gives reading_kept result
        (with_value level (reverse outer.items) value) }
{
    let level = with_factor(level, value)?;
    Ok(Reading {
        level,
        outer,
        due: false,
    })
}

// A `(` comes.
fn opened<'a>(level: Level, outer: Vec<Level>) -> Result<Reading, Hindered<'a>>
    ensures { Gives reading_kept result
        (with_operand (λ name. None) level (reverse outer.items) [] Open) }
{
    let mut outer = outer;
    outer.push(level)?;
    Ok(Reading {
        level: start(),
        outer,
        due: true,
    })
}

// A token comes where no factor is due.
fn with_operator<'a>(
    text: &'a [u8],
    level: Level,
    outer: Vec<Level>,
    token: Token<'a>,
) -> Result<Reading, Hindered<'a>>
    ensures { Gives reading_kept result
        (with_operator text.now level (reverse outer.items) token.entry) }
{
    match token {
        Token::By(by) => Ok(Reading {
            level: with_by(level, by),
            outer,
            due: true,
        }),
        Token::Sign(sign) => {
            let level = with_sign(level, sign)?;
            Ok(Reading {
                level,
                outer,
                due: true,
            })
        }
        Token::Close => closed(text, level, outer),
        Token::Digits(_) | Token::Name(_) | Token::Open | Token::Other => {
            Err(Hindered::Refused(unended(text, &outer)))
        }
    }
}

// A `)` comes: the sum before it is a factor of the one around it.
fn closed<'a>(text: &'a [u8], level: Level, outer: Vec<Level>) -> Result<Reading, Hindered<'a>>
    ensures { Gives reading_kept result
        (closed text.now level (reverse outer.items)) }
{
    let mut outer = outer;
    match outer.pop() {
        Some(around) => with_sum(level, around, outer),
        None => Err(Hindered::Refused(Wrong::NoExpression(Lent::new(text)))),
    }
}

// A sum that ends is a factor of the one around it.
fn with_sum<'a>(level: Level, around: Level, outer: Vec<Level>) -> Result<Reading, Hindered<'a>>
    ensures { Gives reading_kept result (with_sum level around (reverse outer.items)) }
{
    let value = total(level)?;
    with_value(around, outer, value)
}

// What is wrong where neither an operator nor a `)` comes.
fn unended<'a>(text: &'a [u8], outer: &[Level]) -> Wrong<'a>
    ensures { result ≡ unended text.now (reverse outer.now) }
{
    if outer.is_empty() {
        return Wrong::NoExpression(Lent::new(text));
    }
    Wrong::OpenParenthesis
}

// What the text is worth that is read, where it ends here.
fn ended<'a>(reading: Reading) -> Result<i64, Hindered<'a>>
    ensures { Gives (λ value. value) result (ended (reading_kept reading)) }
{
    if reading.due {
        return Err(Hindered::Refused(Wrong::NoOperand(Lent::new(&[]))));
    }
    ended_sum(reading.level, &reading.outer)
}

// What a sum is worth that ends with the text.
fn ended_sum<'a>(level: Level, outer: &[Level]) -> Result<i64, Hindered<'a>>
    ensures { Gives (λ value. value) result (ended_sum level (reverse outer.now)) }
{
    if !outer.is_empty() {
        return Err(Hindered::Refused(Wrong::OpenParenthesis));
    }
    let value = total(level)?;
    Ok(value)
}
