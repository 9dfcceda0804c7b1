// A hunk as code.
ghost use Rattle.std.specs.Prelude.{◌≡◌, ◌*◌, ◌<◌, ◌^◌, length};
ghost use Rattle.word_store.specs.Bytes.{byte_at};

use instruction_set::Code;
use module_text::Hunk;
use std::marker::Model;

/// The words of a hunk, lent as code and seen as their list. Byte 4 * i + k is byte k of word i, the lowest first.
#[derive(Drop)]
pub struct HunkBytes<'a> {
    /// The words of the hunk.
    words: &'a [u32],
}

impl<'a> Model for HunkBytes<'a> {
    ghost use Rattle.std.specs.Prelude.{ℕ, List, length, ◌<◌, ◌^◌};

    ghost Value = { List ℕ };

    ghost view = { λ b. b.words.now };

    ghost invariant = { λ b. length b.words.now < 2 ^ 30 };
}

impl<'a> HunkBytes<'a> {
    /// The bytes of a hunk of fewer than 2 ^ 30 words.
    pub fn new(hunk: &'a Hunk) -> HunkBytes<'a>
        requires { length hunk.now.words < 2 ^ 30 }
        ensures { result ≡ hunk.now.words }
    {
        HunkBytes {
            words: hunk.words.as_slice(),
        }
    }

    /// The number of words, fewer than 2 ^ 30.
    pub fn words(&self) -> u32
        ensures value { result ≡ length self.now }
        ensures short { result < 2 ^ 30 }
    {
        self.words.len() as u32
    }
}

impl Code for HunkBytes<'_> {
    ghost code_bytes = { byte_at };

    fn byte(&self, a: u32) -> Option<u8> {
        let word = self.words.get((a / 4) as usize).copied()?;
        Some(word.to_le_bytes()[(a % 4) as usize])
    }
}
