// Bytes as hex digits in lower case.
ghost use Rattle.std.specs.Prelude.{◌≡◌, ◌*◌, IsTrue, Ok, length, option_map};
ghost use Rattle.std.specs.List.{list_all};
ghost use Rattle.module_text.specs.TextReader.Answers.{Gives};
ghost use Rattle.saved_text.specs.SavedLines.HexText.{bytes_of, is_hex, is_lower_digit};
ghost use Rattle.saved_text.specs.SavedLines.Heads.{hex_field};
ghost use Rattle.saved_text.specs.SavedLines.Statements.{byte_of, word_of};

use module_text::{TextEnd, after_word};
use std::alloc::Global;

/// Whether this is an even number of hex digits in lower case.
pub fn is_hex(digits: &[u8]) -> bool
    ensures { result ≡ is_hex digits.now }
{
    digits.len() % 2 == 0 && are_lower_digits(digits)
}

fn are_lower_digits(digits: &[u8]) -> bool
    ensures { result ≡ list_all is_lower_digit digits.now }
{
    digits
        .iter()
        .all(|c| (48 <= *c && *c <= 57) || (97 <= *c && *c <= 102))
}

/// The digits after a colon; `None` exactly where there is no colon, or what follows it is not hex.
pub fn hex_field(text: &[u8]) -> Option<&[u8]>
    ensures { option_map (λ x. x.now) result ≡ hex_field text.now }
{
    let digits = after_word(b":", text)?;
    is_hex(digits).then_some(digits)
}

/// The bytes that the digits are. `WantMemory` comes only where memory could not be had.
pub fn decoded(alloc: Global, digits: &[u8]) -> Result<Vec<u8>, TextEnd>
    requires { IsTrue (is_hex digits.now) }
    ensures { Gives (λ b. b.items) result (Ok (bytes_of digits.now)) }
{
    match hex::decode(alloc, digits) {
        Ok(bytes) => Ok(bytes),
        Err(_) => Err(TextEnd::WantMemory),
    }
}

/// The byte that two digits are; `None` exactly where they are not that.
pub fn byte_of(digits: &[u8]) -> Option<u8>
    ensures { result ≡ byte_of digits.now }
{
    if digits.len() != 2 || !is_hex(digits) {
        return None;
    }
    let bytes: [u8; 1] = bytes_in(digits);
    Some(bytes[0])
}

/// The word that eight digits are; `None` exactly where they are not that.
pub fn word_of(digits: &[u8]) -> Option<u32>
    ensures { result ≡ word_of digits.now }
{
    if digits.len() != 8 || !is_hex(digits) {
        return None;
    }
    Some(u32::from_be_bytes(bytes_in(digits)))
}

// The bytes that twice as many digits are.
fn bytes_in<const N: usize>(digits: &[u8]) -> [u8; N]
    requires hex { IsTrue (is_hex digits.now) }
    requires twice { length digits.now ≡ 2 * N }
    ensures { result ≡ bytes_of digits.now }
{
    let mut bytes = [0u8; N];
    hex::decode_to_slice(digits, &mut bytes).unwrap();
    bytes
}
