// The row of a function byte.
ghost use Rattle.std.specs.Option.{option_map};
ghost use Rattle.std.specs.Prelude.{◌≡◌};
ghost use Rattle.instruction_set.specs.InstructionTable.Shapes.{carried_at, number_at, operation_at, shape_by, shape_of};
ghost use Rattle.instruction_set.specs.InstructionTable.Table.{entry, entry_of};

use crate::instruction_table::slots::{Operation, SLOTS};
use crate::instruction_table::{Effect, Form, Row, Shape, Test, name};

/// The row of a function byte, or `None` where the table is empty there.
#[tactic(auto, using(crate::proofs::InstructionTable::RowLemmas::row_of_parts, crate::proofs::InstructionTable::RowLemmas::no_row))]
pub fn row(byte: u8) -> Option<Row>
    ensures { option_map entry_of result ≡ entry byte }
{
    let name = name(byte)?;
    let shape = shape(byte)?;
    Some(Row {
        name,
        form: shape.form,
        effect: shape.effect,
    })
}

/// The form and the effect of a function byte's row, or `None` where the table is empty there. A caller of which it becomes part
/// goes from the byte to what it does with them by one jump.
#[inline(always)]
#[tactic(auto, using(crate::proofs::InstructionTable::ShapeLemmas::shape_at))]
pub fn shape(byte: u8) -> Option<Shape>
    ensures { result ≡ option_map shape_of (entry byte) }
{
    shape_by(operation_at(byte), byte)
}

#[inline(always)]
fn operation_at(byte: u8) -> Operation
    ensures { result ≡ operation_at byte }
{
    SLOTS[byte as usize].0
}

// The number of a plain form.
#[inline(always)]
fn number_at(byte: u8) -> u32
    ensures { result ≡ number_at byte }
{
    u32::from(SLOTS[byte as usize].1)
}

// The number that an effect carries.
#[inline(always)]
fn carried_at(byte: u8) -> u32
    ensures { result ≡ carried_at byte }
{
    u32::from(SLOTS[byte as usize].2)
}

// The form and the effect of an operation. The numbers are read where they are wanted.
#[inline(always)]
fn shape_by(operation: Operation, byte: u8) -> Option<Shape>
    ensures { result ≡ shape_by operation (number_at byte) (carried_at byte) }
{
    match operation {
        Operation::Empty => None,
        Operation::LoadPlain => Some(Shape {
            form: Form::Plain(number_at(byte)),
            effect: Effect::Load,
        }),
        Operation::LoadByte => Some(Shape {
            form: Form::Byte,
            effect: Effect::Load,
        }),
        Operation::LoadHalf => Some(Shape {
            form: Form::Half,
            effect: Effect::Load,
        }),
        Operation::LoadWord => Some(Shape {
            form: Form::Word,
            effect: Effect::Load,
        }),
        Operation::LoadMinusPlain => Some(Shape {
            form: Form::Plain(number_at(byte)),
            effect: Effect::LoadMinus,
        }),
        Operation::LoadMinusByte => Some(Shape {
            form: Form::Byte,
            effect: Effect::LoadMinus,
        }),
        Operation::LoadMinusHalf => Some(Shape {
            form: Form::Half,
            effect: Effect::LoadMinus,
        }),
        Operation::LoadPPlain => Some(Shape {
            form: Form::Plain(number_at(byte)),
            effect: Effect::LoadP,
        }),
        Operation::LoadPByte => Some(Shape {
            form: Form::Byte,
            effect: Effect::LoadP,
        }),
        Operation::LoadPHalf => Some(Shape {
            form: Form::Half,
            effect: Effect::LoadP,
        }),
        Operation::LoadPWord => Some(Shape {
            form: Form::Word,
            effect: Effect::LoadP,
        }),
        Operation::LoadPAddressByte => Some(Shape {
            form: Form::Byte,
            effect: Effect::LoadPAddress,
        }),
        Operation::LoadPAddressHalf => Some(Shape {
            form: Form::Half,
            effect: Effect::LoadPAddress,
        }),
        Operation::LoadPAddressWord => Some(Shape {
            form: Form::Word,
            effect: Effect::LoadPAddress,
        }),
        Operation::LoadGByte => Some(Shape {
            form: Form::Byte,
            effect: Effect::LoadG,
        }),
        Operation::LoadGBytePlus => Some(Shape {
            form: Form::BytePlus,
            effect: Effect::LoadG,
        }),
        Operation::LoadGHalf => Some(Shape {
            form: Form::Half,
            effect: Effect::LoadG,
        }),
        Operation::LoadGAddressByte => Some(Shape {
            form: Form::Byte,
            effect: Effect::LoadGAddress,
        }),
        Operation::LoadGAddressBytePlus => Some(Shape {
            form: Form::BytePlus,
            effect: Effect::LoadGAddress,
        }),
        Operation::LoadGAddressHalf => Some(Shape {
            form: Form::Half,
            effect: Effect::LoadGAddress,
        }),
        Operation::LoadGkByte => Some(Shape {
            form: Form::Byte,
            effect: Effect::LoadGk(carried_at(byte)),
        }),
        Operation::LoadGkBytePlus => Some(Shape {
            form: Form::BytePlus,
            effect: Effect::LoadGk(carried_at(byte)),
        }),
        Operation::LoadGkHalf => Some(Shape {
            form: Form::Half,
            effect: Effect::LoadGk(carried_at(byte)),
        }),
        Operation::LoadPkPlain => Some(Shape {
            form: Form::Plain(number_at(byte)),
            effect: Effect::LoadPk(carried_at(byte)),
        }),
        Operation::LoadTargetRelative => Some(Shape {
            form: Form::Relative,
            effect: Effect::LoadTarget,
        }),
        Operation::LoadTargetIndirect => Some(Shape {
            form: Form::Indirect,
            effect: Effect::LoadTarget,
        }),
        Operation::LoadAtTargetRelative => Some(Shape {
            form: Form::Relative,
            effect: Effect::LoadAtTarget,
        }),
        Operation::LoadAtTargetIndirect => Some(Shape {
            form: Form::Indirect,
            effect: Effect::LoadAtTarget,
        }),
        Operation::LoadTargetWordRelative => Some(Shape {
            form: Form::Relative,
            effect: Effect::LoadTargetWord,
        }),
        Operation::LoadTargetWordIndirect => Some(Shape {
            form: Form::Indirect,
            effect: Effect::LoadTargetWord,
        }),
        Operation::StorePPlain => Some(Shape {
            form: Form::Plain(number_at(byte)),
            effect: Effect::StoreP,
        }),
        Operation::StorePByte => Some(Shape {
            form: Form::Byte,
            effect: Effect::StoreP,
        }),
        Operation::StorePHalf => Some(Shape {
            form: Form::Half,
            effect: Effect::StoreP,
        }),
        Operation::StorePWord => Some(Shape {
            form: Form::Word,
            effect: Effect::StoreP,
        }),
        Operation::StoreGByte => Some(Shape {
            form: Form::Byte,
            effect: Effect::StoreG,
        }),
        Operation::StoreGBytePlus => Some(Shape {
            form: Form::BytePlus,
            effect: Effect::StoreG,
        }),
        Operation::StoreGHalf => Some(Shape {
            form: Form::Half,
            effect: Effect::StoreG,
        }),
        Operation::StoreG0Byte => Some(Shape {
            form: Form::Byte,
            effect: Effect::StoreG0,
        }),
        Operation::StoreG0BytePlus => Some(Shape {
            form: Form::BytePlus,
            effect: Effect::StoreG0,
        }),
        Operation::StoreG0Half => Some(Shape {
            form: Form::Half,
            effect: Effect::StoreG0,
        }),
        Operation::StorePkPlain => Some(Shape {
            form: Form::Plain(number_at(byte)),
            effect: Effect::StorePk(carried_at(byte)),
        }),
        Operation::StoreTargetRelative => Some(Shape {
            form: Form::Relative,
            effect: Effect::StoreTarget,
        }),
        Operation::StoreTargetIndirect => Some(Shape {
            form: Form::Indirect,
            effect: Effect::StoreTarget,
        }),
        Operation::AddPPlain => Some(Shape {
            form: Form::Plain(number_at(byte)),
            effect: Effect::AddP,
        }),
        Operation::AddPByte => Some(Shape {
            form: Form::Byte,
            effect: Effect::AddP,
        }),
        Operation::AddPHalf => Some(Shape {
            form: Form::Half,
            effect: Effect::AddP,
        }),
        Operation::AddPWord => Some(Shape {
            form: Form::Word,
            effect: Effect::AddP,
        }),
        Operation::AddGByte => Some(Shape {
            form: Form::Byte,
            effect: Effect::AddG,
        }),
        Operation::AddGBytePlus => Some(Shape {
            form: Form::BytePlus,
            effect: Effect::AddG,
        }),
        Operation::AddGHalf => Some(Shape {
            form: Form::Half,
            effect: Effect::AddG,
        }),
        Operation::AddNPlain => Some(Shape {
            form: Form::Plain(number_at(byte)),
            effect: Effect::AddN,
        }),
        Operation::AddNByte => Some(Shape {
            form: Form::Byte,
            effect: Effect::AddN,
        }),
        Operation::AddNHalf => Some(Shape {
            form: Form::Half,
            effect: Effect::AddN,
        }),
        Operation::AddNWord => Some(Shape {
            form: Form::Word,
            effect: Effect::AddN,
        }),
        Operation::SubNPlain => Some(Shape {
            form: Form::Plain(number_at(byte)),
            effect: Effect::SubN,
        }),
        Operation::SubNByte => Some(Shape {
            form: Form::Byte,
            effect: Effect::SubN,
        }),
        Operation::SubNHalf => Some(Shape {
            form: Form::Half,
            effect: Effect::SubN,
        }),
        Operation::RvPlain => Some(Shape {
            form: Form::Plain(number_at(byte)),
            effect: Effect::Rv,
        }),
        Operation::RvPPlain => Some(Shape {
            form: Form::Plain(number_at(byte)),
            effect: Effect::RvP,
        }),
        Operation::StPlain => Some(Shape {
            form: Form::Plain(number_at(byte)),
            effect: Effect::St,
        }),
        Operation::StPPlain => Some(Shape {
            form: Form::Plain(number_at(byte)),
            effect: Effect::StP,
        }),
        Operation::GbytPlain => Some(Shape {
            form: Form::Plain(number_at(byte)),
            effect: Effect::Gbyt,
        }),
        Operation::PbytPlain => Some(Shape {
            form: Form::Plain(number_at(byte)),
            effect: Effect::Pbyt,
        }),
        Operation::XpbytPlain => Some(Shape {
            form: Form::Plain(number_at(byte)),
            effect: Effect::Xpbyt,
        }),
        Operation::AddPlain => Some(Shape {
            form: Form::Plain(number_at(byte)),
            effect: Effect::Add,
        }),
        Operation::SubPlain => Some(Shape {
            form: Form::Plain(number_at(byte)),
            effect: Effect::Sub,
        }),
        Operation::MulPlain => Some(Shape {
            form: Form::Plain(number_at(byte)),
            effect: Effect::Mul,
        }),
        Operation::DivPlain => Some(Shape {
            form: Form::Plain(number_at(byte)),
            effect: Effect::Div,
        }),
        Operation::RemPlain => Some(Shape {
            form: Form::Plain(number_at(byte)),
            effect: Effect::Rem,
        }),
        Operation::AndPlain => Some(Shape {
            form: Form::Plain(number_at(byte)),
            effect: Effect::And,
        }),
        Operation::OrPlain => Some(Shape {
            form: Form::Plain(number_at(byte)),
            effect: Effect::Or,
        }),
        Operation::XorPlain => Some(Shape {
            form: Form::Plain(number_at(byte)),
            effect: Effect::Xor,
        }),
        Operation::LshPlain => Some(Shape {
            form: Form::Plain(number_at(byte)),
            effect: Effect::Lsh,
        }),
        Operation::RshPlain => Some(Shape {
            form: Form::Plain(number_at(byte)),
            effect: Effect::Rsh,
        }),
        Operation::NegPlain => Some(Shape {
            form: Form::Plain(number_at(byte)),
            effect: Effect::Neg,
        }),
        Operation::NotPlain => Some(Shape {
            form: Form::Plain(number_at(byte)),
            effect: Effect::Not,
        }),
        Operation::XchPlain => Some(Shape {
            form: Form::Plain(number_at(byte)),
            effect: Effect::Xch,
        }),
        Operation::AtbPlain => Some(Shape {
            form: Form::Plain(number_at(byte)),
            effect: Effect::Atb,
        }),
        Operation::AtcPlain => Some(Shape {
            form: Form::Plain(number_at(byte)),
            effect: Effect::Atc,
        }),
        Operation::BtcPlain => Some(Shape {
            form: Form::Plain(number_at(byte)),
            effect: Effect::Btc,
        }),
        Operation::JumpRelative => Some(Shape {
            form: Form::Relative,
            effect: Effect::Jump,
        }),
        Operation::JumpIndirect => Some(Shape {
            form: Form::Indirect,
            effect: Effect::Jump,
        }),
        Operation::JumpIfEqRelative => Some(Shape {
            form: Form::Relative,
            effect: Effect::JumpIf(Test::Eq),
        }),
        Operation::JumpIfEqIndirect => Some(Shape {
            form: Form::Indirect,
            effect: Effect::JumpIf(Test::Eq),
        }),
        Operation::JumpIfNeRelative => Some(Shape {
            form: Form::Relative,
            effect: Effect::JumpIf(Test::Ne),
        }),
        Operation::JumpIfNeIndirect => Some(Shape {
            form: Form::Indirect,
            effect: Effect::JumpIf(Test::Ne),
        }),
        Operation::JumpIfLsRelative => Some(Shape {
            form: Form::Relative,
            effect: Effect::JumpIf(Test::Ls),
        }),
        Operation::JumpIfLsIndirect => Some(Shape {
            form: Form::Indirect,
            effect: Effect::JumpIf(Test::Ls),
        }),
        Operation::JumpIfGrRelative => Some(Shape {
            form: Form::Relative,
            effect: Effect::JumpIf(Test::Gr),
        }),
        Operation::JumpIfGrIndirect => Some(Shape {
            form: Form::Indirect,
            effect: Effect::JumpIf(Test::Gr),
        }),
        Operation::JumpIfLeRelative => Some(Shape {
            form: Form::Relative,
            effect: Effect::JumpIf(Test::Le),
        }),
        Operation::JumpIfLeIndirect => Some(Shape {
            form: Form::Indirect,
            effect: Effect::JumpIf(Test::Le),
        }),
        Operation::JumpIfGeRelative => Some(Shape {
            form: Form::Relative,
            effect: Effect::JumpIf(Test::Ge),
        }),
        Operation::JumpIfGeIndirect => Some(Shape {
            form: Form::Indirect,
            effect: Effect::JumpIf(Test::Ge),
        }),
        Operation::JumpIfZeroEqRelative => Some(Shape {
            form: Form::Relative,
            effect: Effect::JumpIfZero(Test::Eq),
        }),
        Operation::JumpIfZeroEqIndirect => Some(Shape {
            form: Form::Indirect,
            effect: Effect::JumpIfZero(Test::Eq),
        }),
        Operation::JumpIfZeroNeRelative => Some(Shape {
            form: Form::Relative,
            effect: Effect::JumpIfZero(Test::Ne),
        }),
        Operation::JumpIfZeroNeIndirect => Some(Shape {
            form: Form::Indirect,
            effect: Effect::JumpIfZero(Test::Ne),
        }),
        Operation::JumpIfZeroLsRelative => Some(Shape {
            form: Form::Relative,
            effect: Effect::JumpIfZero(Test::Ls),
        }),
        Operation::JumpIfZeroLsIndirect => Some(Shape {
            form: Form::Indirect,
            effect: Effect::JumpIfZero(Test::Ls),
        }),
        Operation::JumpIfZeroGrRelative => Some(Shape {
            form: Form::Relative,
            effect: Effect::JumpIfZero(Test::Gr),
        }),
        Operation::JumpIfZeroGrIndirect => Some(Shape {
            form: Form::Indirect,
            effect: Effect::JumpIfZero(Test::Gr),
        }),
        Operation::JumpIfZeroLeRelative => Some(Shape {
            form: Form::Relative,
            effect: Effect::JumpIfZero(Test::Le),
        }),
        Operation::JumpIfZeroLeIndirect => Some(Shape {
            form: Form::Indirect,
            effect: Effect::JumpIfZero(Test::Le),
        }),
        Operation::JumpIfZeroGeRelative => Some(Shape {
            form: Form::Relative,
            effect: Effect::JumpIfZero(Test::Ge),
        }),
        Operation::JumpIfZeroGeIndirect => Some(Shape {
            form: Form::Indirect,
            effect: Effect::JumpIfZero(Test::Ge),
        }),
        Operation::CallPlain => Some(Shape {
            form: Form::Plain(number_at(byte)),
            effect: Effect::Call,
        }),
        Operation::CallByte => Some(Shape {
            form: Form::Byte,
            effect: Effect::Call,
        }),
        Operation::CallHalf => Some(Shape {
            form: Form::Half,
            effect: Effect::Call,
        }),
        Operation::CallWord => Some(Shape {
            form: Form::Word,
            effect: Effect::Call,
        }),
        Operation::CallGByte => Some(Shape {
            form: Form::Byte,
            effect: Effect::CallG(carried_at(byte)),
        }),
        Operation::CallGBytePlus => Some(Shape {
            form: Form::BytePlus,
            effect: Effect::CallG(carried_at(byte)),
        }),
        Operation::CallGHalf => Some(Shape {
            form: Form::Half,
            effect: Effect::CallG(carried_at(byte)),
        }),
        Operation::RtnPlain => Some(Shape {
            form: Form::Plain(number_at(byte)),
            effect: Effect::Rtn,
        }),
        Operation::GotoPlain => Some(Shape {
            form: Form::Plain(number_at(byte)),
            effect: Effect::Goto,
        }),
        Operation::FhopPlain => Some(Shape {
            form: Form::Plain(number_at(byte)),
            effect: Effect::Fhop,
        }),
        Operation::SwlSwitch => Some(Shape {
            form: Form::Switch,
            effect: Effect::Swl,
        }),
        Operation::SwbSwitch => Some(Shape {
            form: Form::Switch,
            effect: Effect::Swb,
        }),
        Operation::NopPlain => Some(Shape {
            form: Form::Plain(number_at(byte)),
            effect: Effect::Nop,
        }),
        Operation::BrkPlain => Some(Shape {
            form: Form::Plain(number_at(byte)),
            effect: Effect::Brk,
        }),
        Operation::SysPlain => Some(Shape {
            form: Form::Plain(number_at(byte)),
            effect: Effect::Sys,
        }),
    }
}
