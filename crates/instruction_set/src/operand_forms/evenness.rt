// Byte addresses, rounded to even ones.
ghost use Rattle.std.specs.Prelude.{◌≡◌};
ghost use Rattle.instruction_set.specs.OperandForms.Even.{even_above, even_below};

use word_store::add;

/// The address, or the one below it where it is odd.
#[inline]
pub fn even_below(a: u32) -> u32
    ensures { result ≡ even_below a }
{
    a / 2 * 2
}

/// The address, or the one above it where it is odd; above the last address is 0.
#[inline]
pub fn even_above(a: u32) -> u32
    ensures { result ≡ even_above a }
{
    even_below(add(a, 1))
}
