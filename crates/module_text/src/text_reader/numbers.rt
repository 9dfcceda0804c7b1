// Numbers, digit by digit.
ghost use Rattle.std.specs.Prelude.{◌≡◌, ◌-◌, ◌^◌, ◌<◌, ◌≤◌, IfSome};
ghost use Rattle.module_text.specs.TextReader.Numbers.{any_number_of, digit_of, number_of};

/// The most digits of a number.
const MOST_DIGITS: usize = 10;

/// The number that 1 to 10 decimal digits are; `None` exactly where they are not that. Zeros may lead.
pub fn number(digits: &[u8]) -> Option<u64>
    ensures value { result ≡ number_of digits.now }
    ensures small { IfSome result (λ n. n < 10 ^ 10) }
{
    if digits.is_empty() || digits.len() > MOST_DIGITS {
        return None;
    }
    let mut value = 0;
    for byte in digits {
        let digit = digit(10, *byte)?;
        value = value * 10 + u64::from(digit);
    }
    Some(value)
}

/// The number that any number of decimal digits are, or 2 ^ 64 - 1 where it is greater; `None` exactly where there is no
/// digit, or something else.
pub fn any_number(digits: &[u8]) -> Option<u64>
    ensures { result ≡ any_number_of (2 ^ 64 - 1) digits.now }
{
    if digits.is_empty() {
        return None;
    }
    let mut value = 0u64;
    for byte in digits {
        let digit = digit(10, *byte)?;
        value = value.saturating_mul(10).saturating_add(u64::from(digit));
    }
    Some(value)
}

/// The value of a digit of this radix, in either case; `None` exactly where the byte is none.
pub fn digit(radix: u32, byte: u8) -> Option<u32>
    requires low { 2 ≤ radix }
    requires high { radix ≤ 36 }
    ensures value { result ≡ digit_of radix byte }
    ensures small { IfSome result (λ d. d < radix) }
{
    char::from(byte).to_digit(radix)
}
