// What a name and its operands say.
ghost use Rattle.std.specs.Prelude.{◌≡◌, ◌≤◌, ◌+◌, length};
ghost use Rattle.assembly.specs.AssemblyText.LineText.{align, directed, global, instruction, number_from_to, with_number};

use crate::assembly_text::LineError;
use crate::assembly_text::directives::Directive;
use crate::assembly_text::labels::Label;
use crate::assembly_text::numbers::{is_from_to, word_of};
use crate::assembly_text::operands::Operands;
use crate::assembly_text::statements::{Boundary, LineBytes, Statement};
use instruction_set::Form;

/// The instruction of this byte, whose operand has this form.
pub fn instruction<'a>(
    byte: u8,
    form: Form,
    operands: Operands<'a>,
) -> Result<Statement<'a>, LineError>
    ensures { result ≡ instruction byte form operands.entry }
{
    match form {
        Form::Plain(_) | Form::Switch => alone(byte, operands),
        Form::Byte => with_number(&[byte], 1, 0, 255, operands),
        Form::BytePlus => with_number(&[byte], 1, 256, 511, operands),
        Form::Half => with_number(&[byte], 2, 0, 65_535, operands),
        Form::Word => with_number(&[byte], 4, -2_147_483_648, 4_294_967_295, operands),
        Form::Relative => {
            let label = operands.label()?;
            Ok(Statement::Relative { byte, label })
        }
        Form::Indirect => {
            let label = operands.label()?;
            Ok(Statement::Indirect { byte, label })
        }
    }
}

/// What a directive says of these operands.
pub fn directed<'a>(
    directive: Directive,
    operands: Operands<'a>,
) -> Result<Statement<'a>, LineError>
    ensures { result ≡ directed directive operands.entry }
{
    match directive {
        Directive::Byte => with_number(&[], 1, -128, 255, operands),
        Directive::Half => with_number(&[], 2, -32_768, 65_535, operands),
        Directive::Word => with_number(&[], 4, -2_147_483_648, 4_294_967_295, operands),
        Directive::Reserve => Ok(Statement::Reserve(operands.label()?)),
        Directive::Address => Ok(Statement::Address(operands.label()?)),
        Directive::Align => align(operands.number()?),
        Directive::Global => {
            let (n, label) = operands.number_and_label()?;
            global(n, label)
        }
    }
}

// An instruction without an operand.
fn alone<'a>(byte: u8, operands: Operands<'a>) -> Result<Statement<'a>, LineError>
    ensures { result ≡ instruction byte Form.Switch operands.entry }
{
    operands.nothing()?;
    Ok(Statement::Fixed(LineBytes::new(&[byte], &[])))
}

// These bytes, and then the lowest bytes of the number that the operands are, which is from `low` to `high`.
fn with_number<'a>(
    front: &[u8],
    count: usize,
    low: i64,
    high: i64,
    operands: Operands<'a>,
) -> Result<Statement<'a>, LineError>
    requires few { count ≤ 4 }
    requires one { length front.now ≤ 1 }
    ensures { result ≡ with_number front.now count low high operands.entry }
{
    let n = number_from_to(low, high, operands)?;
    let word = word_of(n).to_le_bytes();
    let (bytes, _) = word.split_at(count);
    Ok(Statement::Fixed(LineBytes::new(front, bytes)))
}

// The number that the operands are, which is from `low` to `high`.
fn number_from_to(low: i64, high: i64, operands: Operands) -> Result<i64, LineError>
    ensures { result ≡ number_from_to low high operands.entry }
{
    let n = operands.number()?;
    if is_from_to(low, high, n) {
        Ok(n)
    } else {
        Err(LineError::OutOfRange)
    }
}

fn align<'a>(n: i64) -> Result<Statement<'a>, LineError>
    ensures { result ≡ align n }
{
    if is_from_to(2, 2, n) {
        return Ok(Statement::Align(Boundary::Half));
    }
    if is_from_to(4, 4, n) {
        return Ok(Statement::Align(Boundary::Word));
    }
    Err(LineError::OutOfRange)
}

fn global<'a>(n: i64, label: Label<'a>) -> Result<Statement<'a>, LineError>
    ensures { result ≡ global n label.entry }
{
    if !is_from_to(1, 1000, n) {
        return Err(LineError::OutOfRange);
    }
    Ok(Statement::Global {
        number: word_of(n),
        label,
    })
}
