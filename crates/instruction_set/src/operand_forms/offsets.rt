// Signed offsets, as words to be added modulo 2 ^ 32.
ghost use Rattle.std.specs.Prelude.{◌≡◌};
ghost use Rattle.instruction_set.specs.OperandForms.Offset.{byte_offset, half_offset};

/// The byte as a signed number, -128 to 127, modulo 2 ^ 32.
#[inline]
pub fn byte_offset(b: u8) -> u32
    ensures { result ≡ byte_offset b }
{
    i32::from(b.cast_signed()).cast_unsigned()
}

/// The halfword as a signed number, -32768 to 32767, modulo 2 ^ 32.
#[inline]
pub fn half_offset(h: u16) -> u32
    ensures { result ≡ half_offset h }
{
    i32::from(h.cast_signed()).cast_unsigned()
}
