// Addresses of words, by registers.
ghost use Rattle.std.specs.Prelude.{◌≡◌, option_map};
ghost use Rattle.show_run.specs.TypedWords.Addresses.{away_after, away_by, away_by_number, away_of, is_address, is_away, register_named, register_place, register_value};

use module_text::number;
use word_store::Regs;

/// The most digits of a number of words.
const MOST_DIGITS: usize = 9;

/// A register that a place names.
#[derive(Clone, Copy)]
pub enum Register {
    /// A.
    A,
    /// B.
    B,
    /// G.
    G,
    /// P.
    P,
}

/// How far a place is from a register.
#[derive(Clone, Copy)]
pub enum Away {
    /// So many words more.
    More(u64),
    /// So many words less.
    Less(u64),
    /// No digit comes after the sign.
    NoNumber,
    /// What comes after the sign is no number, or has more than 9 digits.
    BadNumber,
}

/// The register that a place begins with, and what comes after it: nothing, or what begins with `+` or `-`. `None` exactly where it does not
/// begin so.
pub fn register_place(place: &[u8]) -> Option<(Register, &[u8])>
    ensures { option_map (λ x. (x.0, x.1.now)) result ≡ register_place place.now }
{
    let (name, away) = place.split_first()?;
    if !is_away(away) {
        return None;
    }
    let register = register_named(*name)?;
    Some((register, away))
}

// Whether this may come after a register.
fn is_away(away: &[u8]) -> bool
    ensures { result ≡ is_away away.now }
{
    match away.first() {
        Some(sign) => *sign == b'+' || *sign == b'-',
        None => true,
    }
}

// The register with this letter.
fn register_named(name: u8) -> Option<Register>
    ensures { result ≡ register_named name }
{
    match name {
        b'A' => Some(Register::A),
        b'B' => Some(Register::B),
        b'G' => Some(Register::G),
        b'P' => Some(Register::P),
        _ => None,
    }
}

/// What a register has.
pub fn register_value(register: Register, regs: Regs) -> u32
    ensures { result ≡ register_value register regs }
{
    match register {
        Register::A => regs.a,
        Register::B => regs.b,
        Register::G => regs.g,
        Register::P => regs.p,
    }
}

/// How far what comes after a register says that the place is from it.
pub fn away_of(away: &[u8]) -> Away
    ensures { result ≡ away_of away.now }
{
    match away.split_first() {
        Some((sign, digits)) => away_after(*sign, digits),
        None => Away::More(0),
    }
}

// The same, by the sign and what comes after it.
fn away_after(sign: u8, digits: &[u8]) -> Away
    ensures { result ≡ away_after sign digits.now }
{
    match digits.first() {
        Some(digit) if digit.is_ascii_digit() => {}
        _ => return Away::NoNumber,
    }
    if digits.len() > MOST_DIGITS {
        return Away::BadNumber;
    }
    away_by_number(sign, number(digits))
}

fn away_by_number(sign: u8, words: Option<u64>) -> Away
    ensures { result ≡ away_by_number sign words }
{
    match words {
        Some(words) => away_by(sign, words),
        None => Away::BadNumber,
    }
}

fn away_by(sign: u8, words: u64) -> Away
    ensures { result ≡ away_by sign words }
{
    if sign == b'-' {
        Away::Less(words)
    } else {
        Away::More(words)
    }
}

/// Whether a place is written as a byte address.
pub fn is_address(place: &[u8]) -> bool
    ensures { result ≡ is_address place.now }
{
    place.iter().all(|c| c.is_ascii_digit())
}
