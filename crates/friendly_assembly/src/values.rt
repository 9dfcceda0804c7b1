// Values of operands.
ghost use Rattle.std.specs.Prelude.{◌≡◌, ◌++◌, [], OnOk};
ghost use Rattle.friendly_assembly.specs.Operands.{digits_text, signed, value, value_text};
ghost use Rattle.friendly_assembly.specs.Settings.{is_number};

use crate::numbers::are_decimal_digits;
use std::alloc::AllocError;
use tool_texts::Said::{Bytes, Number};
use tool_texts::{Lent, push_sentence};

/// What a value has after its sign.
#[derive(Drop)]
pub enum Digits<'a> {
    /// A number.
    Number(u32),
    /// Digits, or a name, as they are in the text.
    Text(Lent<'a>),
}

impl<'a> Digits<'a> {
    /// The same once more.
    fn again(&self) -> Digits<'a>
        ensures { result ≡ self.now }
    {
        match self {
            Digits::Number(n) => Digits::Number(*n),
            Digits::Text(text) => Digits::Text(text.again()),
        }
    }
}

/// What is in the place of an operand.
#[derive(Drop)]
pub struct Value<'a> {
    /// Whether a minus sign comes first.
    pub minus: bool,
    /// What comes after it.
    pub digits: Digits<'a>,
}

impl<'a> Value<'a> {
    /// A value with its sign.
    pub fn new(minus: bool, digits: Digits<'a>) -> Value<'a>
        ensures { result ≡ value minus digits.entry }
    {
        Value { minus, digits }
    }

    /// The value after one more sign.
    pub fn signed(&self, minus: bool) -> Value<'a>
        ensures { result ≡ signed minus self.now }
    {
        Value {
            minus: minus != self.minus,
            digits: self.digits.again(),
        }
    }

    /// Whether it is a number: decimal digits, 11 with the sign at most.
    pub fn is_number(&self) -> bool
        ensures { result ≡ is_number self.now }
    {
        match &self.digits {
            Digits::Number(_) => true,
            Digits::Text(text) => {
                are_decimal_digits(text.bytes(), if self.minus { 10 } else { 11 })
            }
        }
    }

    /// Adds it to a text.
    pub fn push(&self, text: &mut Vec<u8>) -> Result<(), AllocError>
        ensures { OnOk result (text.new.items ≡ text.old.items ++ value_text self.now) }
    {
        push_sign(text, self.minus)?;
        push_digits(text, &self.digits)
    }
}

fn push_sign(text: &mut Vec<u8>, minus: bool) -> Result<(), AllocError>
    ensures { OnOk result (text.new.items ≡ text.old.items ++ value_text (value minus (Digits.Text []))) }
{
    if minus {
        return push_sentence(text, &[Bytes(b"-")]);
    }
    Ok(())
}

fn push_digits(text: &mut Vec<u8>, digits: &Digits) -> Result<(), AllocError>
    ensures { OnOk result (text.new.items ≡ text.old.items ++ digits_text digits.now) }
{
    match digits {
        Digits::Number(n) => push_sentence(text, &[Number(*n as u64)]),
        Digits::Text(bytes) => push_sentence(text, &[Bytes(bytes.bytes())]),
    }
}
