// Sums, products, quotients and remainders of at most 15 digits.
ghost use Rattle.std.specs.Prelude.{◌≡◌, ◌≢◌, ◌+ℤ◌, ◌-ℤ◌, ◌*ℤ◌, int_div, pos};
ghost use Rattle.lab_marks.specs.Arithmetic.{is_short, joined, made, number_worth, short};

use crate::wrongs::Wrong;
use module_text::any_number;

/// Ten to the 15th: values are less, with any sign.
const BEYOND: i64 = 1_000_000_000_000_000;

/// How a product is taken into a sum.
#[derive(Clone, Copy)]
pub enum Sign {
    /// It is added.
    Plus,
    /// It is taken away.
    Minus,
}

/// How a factor is taken into a product.
#[derive(Clone, Copy)]
pub enum By {
    /// The product is multiplied by it.
    Times,
    /// The product is divided by it, toward zero.
    Over,
    /// The remainder of that is left, which has the sign of the product.
    Remainder,
}

/// A sum with one more product, added or taken away.
pub fn joined<'a>(sign: Sign, a: i64, b: i64) -> Result<i64, Wrong<'a>>
    ensures { result ≡ joined sign a b }
{
    match sign {
        Sign::Plus => plus(a, b),
        Sign::Minus => minus(a, b),
    }
}

/// A product with one more factor. A factor of 0 divides nothing.
pub fn made<'a>(by: By, a: i64, b: i64) -> Result<i64, Wrong<'a>>
    ensures { result ≡ made by a b }
{
    match by {
        By::Times => times(a, b),
        By::Over => {
            if b == 0 {
                return Err(Wrong::DivisionByZero);
            }
            over(a, b)
        }
        By::Remainder => {
            if b == 0 {
                return Err(Wrong::DivisionByZero);
            }
            short(a.wrapping_rem(b))
        }
    }
}

/// What a number of decimal digits is worth.
pub fn number_worth<'a>(digits: &[u8]) -> Result<i64, Wrong<'a>>
    ensures { result ≡ number_worth digits.now }
{
    match any_number(digits) {
        Some(n) if n < BEYOND as u64 => Ok(n as i64),
        _ => Err(Wrong::LongValue),
    }
}

fn plus<'a>(a: i64, b: i64) -> Result<i64, Wrong<'a>>
    ensures { result ≡ short (a +ℤ b) }
{
    match a.checked_add(b) {
        Some(value) => short(value),
        None => Err(Wrong::LongValue),
    }
}

fn minus<'a>(a: i64, b: i64) -> Result<i64, Wrong<'a>>
    ensures { result ≡ short (a -ℤ b) }
{
    match a.checked_sub(b) {
        Some(value) => short(value),
        None => Err(Wrong::LongValue),
    }
}

fn times<'a>(a: i64, b: i64) -> Result<i64, Wrong<'a>>
    ensures { result ≡ short (a *ℤ b) }
{
    match a.checked_mul(b) {
        Some(value) => short(value),
        None => Err(Wrong::LongValue),
    }
}

fn over<'a>(a: i64, b: i64) -> Result<i64, Wrong<'a>>
    requires { b ≢ pos 0 }
    ensures { result ≡ short (int_div a b) }
{
    match a.checked_div(b) {
        Some(value) => short(value),
        None => Err(Wrong::LongValue),
    }
}

/// A value, where it is short enough.
pub fn short<'a>(value: i64) -> Result<i64, Wrong<'a>>
    ensures { result ≡ short value }
{
    if is_short(value) {
        Ok(value)
    } else {
        Err(Wrong::LongValue)
    }
}

fn is_short(value: i64) -> bool
    ensures { result ≡ is_short value }
{
    -BEYOND < value && value < BEYOND
}
