// The instruction at a byte address.
ghost use Rattle.std.specs.Prelude.{◌≡◌, ◌≤◌, IfOk};
ghost use Rattle.instruction_set.specs.OperandForms.Decoded.{byte_or_outside, decoded, half_at, halfword_byte, halfword_offset, number_operand, operand_at, target_operand, word_at};

use crate::instruction_table::{Form, shape};
use crate::operand_forms::{Code, DecodeEnd, Instr, byte_offset, even_below, half_offset};
use word_store::add;

/// The instruction at byte address pc. The checks are made in this order: the function byte is inside (else `Outside`)
/// and has a row (else `Undefined`), the operand's bytes are inside (else `Outside`), and the two bytes of an indirect
/// form's halfword are inside (else `Halfword`); of several bytes the first that is outside is named. Addresses are
/// taken modulo 2 ^ 32.
#[inline(always)]
pub fn decode<X: Code>(code: &X, pc: u32) -> Result<Instr, DecodeEnd>
    ensures value { result ≡ decoded (X.code_bytes code.now) pc }
    ensures length { IfOk result (λ i. (1 ≤ i.length) × (i.length ≤ 5)) }
{
    let byte = byte_at(code, pc)?;
    let shape = shape(byte).ok_or(DecodeEnd::Undefined(pc))?;
    let operand = operand_at(code, pc, shape.form)?;
    Ok(Instr {
        byte,
        effect: shape.effect,
        operand: operand.number,
        length: operand.length,
        target: operand.target,
    })
}

/// What a form tells of an instruction.
#[derive(Clone, Copy)]
pub struct Operand {
    /// The operand.
    pub number: u32,
    /// How many bytes the instruction has.
    pub length: u32,
    /// The byte address that it leads to, where it leads anywhere.
    pub target: u32,
}

#[inline(always)]
fn number_operand(number: u32, length: u32) -> Operand
    ensures { result ≡ number_operand number length }
{
    Operand {
        number,
        length,
        target: 0,
    }
}

#[inline(always)]
fn target_operand(target: u32) -> Operand
    ensures { result ≡ target_operand target }
{
    Operand {
        number: 0,
        length: 2,
        target,
    }
}

/// The operand of a form, after the function byte at pc.
#[inline(always)]
pub fn operand_at<X: Code>(code: &X, pc: u32, form: Form) -> Result<Operand, DecodeEnd>
    ensures value { result ≡ operand_at (X.code_bytes code.now) pc form }
    ensures length { IfOk result (λ o. (1 ≤ o.length) × (o.length ≤ 5)) }
{
    let next = add(pc, 1);
    match form {
        Form::Plain(n) => Ok(number_operand(n, 1)),
        Form::Byte => Ok(number_operand(u32::from(byte_at(code, next)?), 2)),
        Form::BytePlus => Ok(number_operand(u32::from(byte_at(code, next)?) + 256, 2)),
        Form::Half => Ok(number_operand(half_at(code, next)?, 3)),
        Form::Word => Ok(number_operand(word_at(code, next)?, 5)),
        Form::Relative => Ok(target_operand(add(next, byte_offset(byte_at(code, next)?)))),
        Form::Indirect => {
            let place = even_below(add(next, 2 * u32::from(byte_at(code, next)?)));
            Ok(target_operand(add(place, halfword_offset(code, place)?)))
        }
        Form::Switch => Ok(number_operand(0, 1)),
    }
}

/// The byte at an address.
#[inline(always)]
pub fn byte_at<X: Code>(code: &X, a: u32) -> Result<u8, DecodeEnd>
    ensures { result ≡ byte_or_outside (X.code_bytes code.now) a }
{
    code.byte(a).ok_or(DecodeEnd::Outside(a))
}

#[inline(always)]
fn half_at<X: Code>(code: &X, a: u32) -> Result<u32, DecodeEnd>
    ensures { result ≡ half_at (X.code_bytes code.now) a }
{
    let low = byte_at(code, a)?;
    let high = byte_at(code, add(a, 1))?;
    Ok(u32::from(u16::from_le_bytes([low, high])))
}

#[inline(always)]
fn word_at<X: Code>(code: &X, a: u32) -> Result<u32, DecodeEnd>
    ensures { result ≡ word_at (X.code_bytes code.now) a }
{
    let first = byte_at(code, a)?;
    let second = byte_at(code, add(a, 1))?;
    let third = byte_at(code, add(a, 2))?;
    let fourth = byte_at(code, add(a, 3))?;
    Ok(u32::from_le_bytes([first, second, third, fourth]))
}

#[inline(always)]
fn halfword_offset<X: Code>(code: &X, a: u32) -> Result<u32, DecodeEnd>
    ensures { result ≡ halfword_offset (X.code_bytes code.now) a }
{
    let low = halfword_byte(code, a)?;
    let high = halfword_byte(code, add(a, 1))?;
    Ok(half_offset(u16::from_le_bytes([low, high])))
}

#[inline(always)]
fn halfword_byte<X: Code>(code: &X, a: u32) -> Result<u8, DecodeEnd>
    ensures { result ≡ halfword_byte (X.code_bytes code.now) a }
{
    code.byte(a).ok_or(DecodeEnd::Halfword(a))
}
