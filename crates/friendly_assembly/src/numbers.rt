// Digits, and the numbers that they are.
ghost use Rattle.std.specs.Prelude.{◌≡◌};
ghost use Rattle.std.specs.Char.{is_digit};
ghost use Rattle.std.specs.List.{list_all};
ghost use Rattle.std.specs.Option.{option_copied};
ghost use Rattle.module_text.specs.Words.{word_of};
ghost use Rattle.friendly_assembly.specs.Operands.{after_mark, are_hex_digits, hex_number};
ghost use Rattle.friendly_assembly.specs.Settings.{are_decimal_digits};

use crate::flaws::Wrong;
use module_text::SliceText;
use module_text::tokens::{Span, word_in};
use tool_texts::Lent;

/// The most digits of a hex number.
const MOST_DIGITS: usize = 8;

/// Whether these are decimal digits, at least one and no more than so many.
pub fn are_decimal_digits(digits: &[u8], most: usize) -> bool
    ensures { result ≡ are_decimal_digits digits.now most }
{
    !digits.is_empty() && are_decimal(digits) && digits.len() <= most
}

fn are_decimal(digits: &[u8]) -> bool
    ensures { result ≡ list_all (λ c. is_digit c 10) digits.now }
{
    digits.iter().all(|c| char::from(*c).is_digit(10))
}

/// What comes after `0x`; `None` exactly where a word does not begin with it.
pub fn after_mark(word: &[u8]) -> Option<&[u8]>
    ensures { option_copied result ≡ after_mark word.now }
{
    match word {
        [b'0', b'x' | b'X', digits @ ..] => Some(digits),
        _ => None,
    }
}

/// The number that 1 to 8 hex digits are, or what is wrong with them.
pub fn hex_number(digits: &[u8]) -> Result<u32, Wrong<'_>>
    ensures { result ≡ hex_number digits.now }
{
    if digits.len() > MOST_DIGITS && are_hex_digits(digits) {
        return Err(Wrong::LongHex(digits.len()));
    }
    match hex_value(digits) {
        Some(n) => Ok(n),
        None => Err(Wrong::NoHex(Lent::new(digits))),
    }
}

fn are_hex_digits(digits: &[u8]) -> bool
    ensures { result ≡ are_hex_digits digits.now }
{
    digits.iter().all(|c| char::from(*c).is_digit(16))
}

// The number that 1 to 8 hex digits are; `None` exactly where they are not that.
fn hex_value(digits: &[u8]) -> Option<u32>
    ensures { result ≡ word_of digits.now }
{
    if digits.is_empty() || digits.len() > MOST_DIGITS {
        return None;
    }
    let end = digits.len() as u32;
    word_in(&SliceText::new(digits), Span { start: 0, end })
}
