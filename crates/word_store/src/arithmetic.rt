// Arithmetic of words, modulo 2 ^ 32.
ghost use Rattle.std.specs.Prelude.{◌≡◌, ◌≢◌, FitsSigned, int_div, int_rem, pos};
ghost use Rattle.std.specs.Int.{w32};
ghost use Rattle.word_store.specs.Arithmetic.{add, div, mul, mul_div, rem, shl, shr, signed, sub, word_of};

/// The sum.
#[inline]
pub fn add(x: u32, y: u32) -> u32
    ensures { result ≡ add x y }
{
    x.wrapping_add(y)
}

/// The difference.
#[inline]
pub fn sub(x: u32, y: u32) -> u32
    ensures { result ≡ sub x y }
{
    x.wrapping_sub(y)
}

/// The product.
#[inline]
pub fn mul(x: u32, y: u32) -> u32
    ensures { result ≡ mul x y }
{
    x.wrapping_mul(y)
}

/// The signed quotient, toward zero; `None` exactly where y is 0. The least number by -1 gives itself.
pub fn div(x: u32, y: u32) -> Option<u32>
    ensures { result ≡ div x y }
{
    if y == 0 {
        return None;
    }
    Some(signed(x).wrapping_div(signed(y)).cast_unsigned())
}

/// The signed remainder, with the sign of x; `None` exactly where y is 0. The least number by -1 leaves 0.
pub fn rem(x: u32, y: u32) -> Option<u32>
    ensures { result ≡ rem x y }
{
    if y == 0 {
        return None;
    }
    Some(signed(x).wrapping_rem(signed(y)).cast_unsigned())
}

/// x, shifted left by y bits; by 32 and more it gives 0.
#[inline]
pub fn shl(x: u32, y: u32) -> u32
    ensures { result ≡ shl x y }
{
    if y < 32 { x.wrapping_shl(y) } else { 0 }
}

/// x, shifted right by y bits, with zeros from the left; by 32 and more it gives 0.
#[inline]
pub fn shr(x: u32, y: u32) -> u32
    ensures { result ≡ shr x y }
{
    if y < 32 { x >> y } else { 0 }
}

/// The word as a signed number: x below 2 ^ 31, else x - 2 ^ 32.
#[inline]
pub fn signed(x: u32) -> i32
    ensures { result ≡ signed x }
{
    x.cast_signed()
}

/// The signed product of a and b, in 64 bits, divided by c toward zero: the quotient modulo 2 ^ 32, and the remainder.
/// Both are 0 where c is 0.
pub fn mul_div(a: u32, b: u32, c: u32) -> (u32, u32)
    ensures { result ≡ mul_div a b c }
{
    if c == 0 {
        return (0, 0);
    }
    quotient_and_remainder(wide(a) * wide(b), wide(c))
}

// The signed number of a word, in 64 bits.
fn wide(x: u32) -> i64
    ensures value { result ≡ signed x }
    ensures fits { FitsSigned w32 result }
{
    signed(x) as i64
}

fn quotient_and_remainder(x: i64, y: i64) -> (u32, u32)
    requires { y ≢ pos 0 }
    ensures { result ≡ (word_of (int_div x y), word_of (int_rem x y)) }
{
    (low_word(x.wrapping_div(y)), low_word(x.wrapping_rem(y)))
}

// A number modulo 2 ^ 32.
fn low_word(x: i64) -> u32
    ensures { result ≡ word_of x }
{
    (x.cast_unsigned() % 0x1_0000_0000) as u32
}
