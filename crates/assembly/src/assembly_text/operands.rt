// The operands of a line.
ghost use Rattle.std.specs.Prelude.{◌≡◌, Ok, Err};
ghost use Rattle.assembly.specs.AssemblyText.Operands.{both, label_operand, no_operand, number_operand, numbered_label, one_operand, operands_of, unknown_name};
ghost use Rattle.assembly.specs.AssemblyText.Parts.{parts_of};

use crate::assembly_text::LineError;
use crate::assembly_text::labels::Label;
use crate::assembly_text::numbers::number;
use crate::assembly_text::parts::split_part;

/// The operands of a line, which follow the name.
#[derive(Drop)]
pub enum Operands<'a> {
    Nothing,
    Number(i64),
    Label(Label<'a>),
    NumberAndLabel(i64, Label<'a>),
    /// No line has operands of this shape.
    Other,
}

/// The operands that these parts of a line are.
pub fn read_operands(rest: &[u8]) -> Operands<'_>
    ensures { result ≡ operands_of (parts_of rest.now) }
{
    let Some((first, rest)) = split_part(rest) else {
        return Operands::Nothing;
    };
    let Some((second, rest)) = split_part(rest) else {
        return one_operand(first);
    };
    match split_part(rest) {
        None => two_operands(first, second),
        Some(_) => Operands::Other,
    }
}

fn one_operand(part: &[u8]) -> Operands<'_>
    ensures { result ≡ one_operand part.now }
{
    if let Some(n) = number(part) {
        return Operands::Number(n);
    }
    match Label::read(part) {
        Some(label) => Operands::Label(label),
        None => Operands::Other,
    }
}

fn two_operands<'a>(first: &[u8], second: &'a [u8]) -> Operands<'a>
    ensures { result ≡ both first.now second.now }
{
    let Some(n) = number(first) else {
        return Operands::Other;
    };
    match Label::read(second) {
        Some(label) => Operands::NumberAndLabel(n, label),
        None => Operands::Other,
    }
}

impl<'a> Operands<'a> {
    ghost use Rattle.std.specs.Prelude.{◌≡◌};
    ghost use Rattle.assembly.specs.AssemblyText.Operands.{label_operand, no_operand, number_operand, numbered_label, unknown_name};

    /// Nothing, where that is what they are.
    pub fn nothing(self) -> Result<(), LineError>
        ensures { result ≡ no_operand self.entry }
    {
        match self {
            Operands::Nothing => Ok(()),
            _ => Err(LineError::NoForm),
        }
    }

    /// The number that they are.
    pub fn number(self) -> Result<i64, LineError>
        ensures { result ≡ number_operand self.entry }
    {
        match self {
            Operands::Number(n) => Ok(n),
            _ => Err(LineError::NoForm),
        }
    }

    /// The label that they are.
    pub fn label(self) -> Result<Label<'a>, LineError>
        ensures { result ≡ label_operand self.entry }
    {
        match self {
            Operands::Label(label) => Ok(label),
            _ => Err(LineError::NoForm),
        }
    }

    /// The number and the label that they are.
    pub fn number_and_label(self) -> Result<(i64, Label<'a>), LineError>
        ensures { result ≡ numbered_label self.entry }
    {
        match self {
            Operands::NumberAndLabel(n, label) => Ok((n, label)),
            _ => Err(LineError::NoForm),
        }
    }

    /// What is wrong with a line that has these operands after a name that is unknown.
    pub fn after_unknown_name(self) -> LineError
        ensures { result ≡ unknown_name self.entry }
    {
        match self {
            Operands::Nothing | Operands::Number(_) | Operands::Label(_) => LineError::UnknownName,
            _ => LineError::NoForm,
        }
    }
}
