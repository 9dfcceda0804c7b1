// Where an instruction's operand is.

/// Where the operand is. Operands follow the function byte directly, the lowest byte first.
#[derive(Clone, Copy)]
pub enum Form {
    /// In the name: this number, or 0 where the name has none.
    Plain(u32),
    /// In the next byte.
    Byte,
    /// In the next byte, plus 256.
    BytePlus,
    /// In the next two bytes.
    Half,
    /// In the next four bytes.
    Word,
    /// The next byte, as a signed number, leads from its own address to the target.
    Relative,
    /// Twice the next byte leads from its address, rounded down to even, to a halfword, and that halfword, as a
    /// signed number, leads from its own address to the target.
    Indirect,
    /// In a table of halfwords, from the first even address after the function byte on.
    Switch,
}
