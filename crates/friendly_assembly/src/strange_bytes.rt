// Characters that look like a blank or a quote, and are none.
ghost use Rattle.std.specs.Prelude.{◌≡◌, ◌+◌, ◌<◌, ◌^◌, length};
ghost use Rattle.friendly_assembly.specs.StrangeBytes.{is_typographic, strange_character, strange_flaw};

use crate::flaws::{Flaw, Wrong};

/// The first such character of a text, whose first byte is in column 1.
pub fn strange_flaw(text: &[u8]) -> Option<Flaw<'_>>
    ensures { result ≡ strange_flaw 1 text.now }
{
    for i in 0..text.len() {
        match strange_character(text.split_at(i).1) {
            Some(wrong) => return Some(Flaw::new(i + 1, wrong)),
            None => {}
        }
    }
    None
}

// What a text begins with, if it is such a character.
fn strange_character(text: &[u8]) -> Option<Wrong<'_>>
    ensures { result ≡ strange_character text.now }
{
    match text {
        [194, 160, ..] => Some(Wrong::NoBreakSpace),
        [c, d, e, ..] if is_typographic(*c, *d, *e) => Some(Wrong::TypographicQuote),
        _ => None,
    }
}

// Whether three bytes are a typographic quote, from U+2018 to U+201F.
fn is_typographic(c: u8, d: u8, e: u8) -> bool
    ensures { result ≡ is_typographic c d e }
{
    c == 226 && d == 128 && 152 <= e && e <= 159
}
