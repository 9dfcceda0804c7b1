// What an operand becomes.
ghost use Rattle.std.specs.Prelude.{◌≡◌, ◌++◌, ◌+◌, ◌<◌, ◌^◌, codes, length, nat_eq, OnOk};
ghost use Rattle.std.specs.List.{starts_with};
ghost use Rattle.std.specs.Option.{unwrap_or};
ghost use Rattle.friendly_assembly.specs.KeptNames.{labels_in_map, names_by};
ghost use Rattle.friendly_assembly.specs.Operands.{character_by, hex_at, is_minus, named_value, operand_of, operand_text, single_at, without_sign, word_value};
ghost use Rattle.friendly_assembly.specs.Quotes.{codes_in};

use crate::flaws::{Flaw, Wrong};
use crate::names::{Names, constant_named};
use crate::numbers::{after_mark, hex_number};
use crate::parts::Part;
use crate::quotes::{code_count, quote_flaw, quoted, split_code};
use crate::values::{Digits, Value};
use std::alloc::AllocError;
use std::collections::BTreeMap;
use tool_texts::Lent;

/// What a part that is an operand becomes, or what is wrong with it.
#[tactic(auto, unfolding(crate::specs::Operands::operand_of))]
pub fn operand_of<'a>(names: &Names<'_, 'a>, part: &Part<'a>) -> Result<Value<'a>, Flaw<'a>>
    ensures { result ≡ operand_of (names_by names.now.constants.now names.now.firsts.now) part.now }
{
    let text = part.text.bytes();
    match text.split_first() {
        Some((b'\'', others)) => { character_by(part, quote_flaw(b'\'', part.column, others)) }
        Some((b'"', _)) => Err(Flaw::new(part.column, Wrong::StringElsewhere)),
        _ => word_value(names, part.column, is_minus(text), without_sign(text)),
    }
}

// The character that a part is, where nothing is wrong in its quotes.
fn character_by<'a>(part: &Part<'a>, wrong: Option<Flaw<'a>>) -> Result<Value<'a>, Flaw<'a>>
    ensures { result ≡ character_by part.now wrong.entry }
{
    match wrong {
        Some(wrong) => Err(wrong),
        None => single_at(part.column, quoted(part.text.bytes())),
    }
}

// The one character of a quoted text.
fn single_at<'a>(column: usize, text: &[u8]) -> Result<Value<'a>, Flaw<'a>>
    ensures { result ≡ single_at column (codes_in text.now) }
{
    match split_code(text) {
        Some((code, [])) => Ok(Value::new(false, Digits::Number(code as u32))),
        _ => Err(Flaw::new(column, Wrong::CharacterCount(code_count(text)))),
    }
}

// Whether a part begins with a minus sign.
fn is_minus(part: &[u8]) -> bool
    ensures { result ≡ is_minus part.now }
{
    part.starts_with(b"-")
}

// What comes after the sign.
fn without_sign(part: &[u8]) -> &[u8]
    ensures { result.now ≡ without_sign part.now }
{
    part.strip_prefix(b"-").unwrap_or(part)
}

// A number or a name after its sign.
fn word_value<'a>(
    names: &Names<'_, 'a>,
    column: usize,
    minus: bool,
    word: &'a [u8],
) -> Result<Value<'a>, Flaw<'a>>
    ensures { result
        ≡ word_value (names_by names.now.constants.now names.now.firsts.now) column minus word.now }
{
    match after_mark(word) {
        Some(digits) => hex_at(column, minus, hex_number(digits)),
        None => Ok(named_value(names, minus, word)),
    }
}

// A hex number with its sign.
fn hex_at<'a>(
    column: usize,
    minus: bool,
    number: Result<u32, Wrong<'a>>,
) -> Result<Value<'a>, Flaw<'a>>
    ensures { result ≡ hex_at column minus number.entry }
{
    match number {
        Ok(n) => Ok(Value::new(minus, Digits::Number(n))),
        Err(wrong) => Err(Flaw::new(column, wrong)),
    }
}

// The value of a constant, the first label of a line for another, or the word itself.
fn named_value<'a>(names: &Names<'_, 'a>, minus: bool, word: &'a [u8]) -> Value<'a>
    ensures { result
        ≡ named_value (names_by names.now.constants.now names.now.firsts.now) minus word.now }
{
    match constant_named(names.constants, word) {
        Some(constant) => constant.value.signed(minus),
        None => Value::new(
            minus,
            Digits::Text(Lent::new(first_label(names.firsts, word))),
        ),
    }
}

// The first label of the line of this one, or else this one.
fn first_label<'a>(firsts: &BTreeMap<&'a [u8], &'a [u8]>, label: &'a [u8]) -> &'a [u8]
    ensures { result.now ≡ unwrap_or (labels_in_map firsts.now label.now) label.now }
{
    match firsts.get(label) {
        Some(first) => first,
        None => label,
    }
}

/// Adds the plain text of an operand to a text.
pub fn push_operand<'a>(
    text: &mut Vec<u8>,
    names: &Names<'_, 'a>,
    part: &Part<'a>,
) -> Result<(), AllocError>
    ensures { let known = names_by names.now.constants.now names.now.firsts.now in
        OnOk result (text.new.items ≡ text.old.items ++ operand_text known part.now) }
{
    match operand_of(names, part) {
        Ok(value) => value.push(text),
        Err(_) => text.extend_from_slice(part.text.bytes()),
    }
}
