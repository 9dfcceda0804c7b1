// Numbers in decimal.
ghost use Rattle.std.specs.Prelude.{◌≡◌};
ghost use Rattle.assembly.specs.AssemblyText.Numbers.{is_from_to, number_of, word_of};

/// The number that this part of a line is: 1 to 10 decimal digits, which may follow a `-`. `None` exactly where it is none.
pub fn number(part: &[u8]) -> Option<i64>
    ensures { result ≡ number_of part.now }
{
    match part.strip_prefix(b"-") {
        Some(digits) => module_text::number(digits).map(|n| -(n as i64)),
        None => module_text::number(part).map(|n| n as i64),
    }
}

/// Whether n is from `low` to `high`.
pub fn is_from_to(low: i64, high: i64, n: i64) -> bool
    ensures { result ≡ is_from_to low high n }
{
    low <= n && n <= high
}

/// The low 32 bits of a number.
pub fn word_of(n: i64) -> u32
    ensures { result ≡ word_of n }
{
    (n.cast_unsigned() % (1 << 32)) as u32
}
