// What decoding gives.
use crate::instruction_table::Effect;

/// An instruction of the machine.
#[derive(Clone, Copy)]
pub struct Instr {
    /// The function byte, which has a row in the table.
    pub byte: u8,
    /// The effect of that row.
    pub effect: Effect,
    /// The operand; in a plain form the number in the name, and 0 where it is neither.
    pub operand: u32,
    /// The number of bytes, 1 to 5.
    pub length: u32,
    /// The byte address that a relative or an indirect form leads to, and 0 in every other form.
    pub target: u32,
}

/// Why no instruction is at a place. Each carries a byte address.
#[derive(Clone, Copy)]
pub enum DecodeEnd {
    /// The function byte, or this byte of the operand, is outside.
    Outside(u32),
    /// The table has no row for the byte here.
    Undefined(u32),
    /// This byte of the halfword of an indirect form is outside.
    Halfword(u32),
}
