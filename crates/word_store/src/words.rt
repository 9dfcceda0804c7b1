// The store: words of 32 bits, addressed from 0, and their bytes, the lowest byte of a word first.
ghost use Rattle.std.specs.Prelude.{◌≡◌, ◌+◌, ◌*◌, ◌<◌, ◌↔◌, IfOk, IfSome, IsNone, IsTrue, length, replicate, slice_get, slice_range, slice_set};
ghost use Rattle.word_store.specs.Bytes.{byte_at, byte_of, set_byte_at};

pub mod by_address;

use std::alloc::Global;
use std::marker::Model;

/// Memory for the store could not be had.
#[derive(Clone, Copy)]
pub struct NoStoreMemory;

/// A store of fewer than 2 ^ 32 words, seen as their list.
#[derive(Drop)]
pub struct Store {
    /// The words, from address 0.
    words: Vec<u32>,
}

impl Model for Store {
    ghost use Rattle.std.specs.Prelude.{ℕ, List, ◌<◌, ◌^◌, vec_len};

    ghost Value = { List ℕ };

    ghost view = { λ s. s.words.items };

    ghost invariant = { λ s. vec_len s.words < 2 ^ 32 };
}

impl Store {
    /// A store of that many zeros.
    pub fn new(alloc: Global, words: u32) -> Result<Store, NoStoreMemory>
        ensures { IfOk result (λ s. s ≡ replicate words 0) }
    {
        match vec![in alloc; 0u32; words as usize] {
            Ok(words) => Ok(Store { words }),
            Err(_) => Err(NoStoreMemory),
        }
    }

    /// The number of words.
    #[inline]
    pub fn size(&self) -> u32
        ensures { result ≡ length self.now }
    {
        self.words.len() as u32
    }

    /// The word at address a, or `None` exactly where it is outside.
    #[inline]
    pub fn get(&self, a: u32) -> Option<u32>
        ensures { result ≡ slice_get self.now a }
    {
        self.words.get(a as usize).copied()
    }

    /// Sets the word at address a. The answer is false exactly where it is outside; then nothing changes.
    #[inline]
    pub fn set(&mut self, a: u32, w: u32) -> bool
        ensures inside { IsTrue result ↔ (a < length self.old) }
        ensures after { self.new ≡ slice_set self.old a w }
    {
        if a >= self.size() {
            return false;
        }
        self.words[a as usize] = w;
        true
    }

    /// The byte at byte address a, or `None` exactly where it is outside.
    #[inline]
    pub fn get_byte(&self, a: u32) -> Option<u8>
        ensures { result ≡ byte_at self.now a }
    {
        let w = self.get(a / 4)?;
        Some(byte_of(w, a % 4))
    }

    /// Sets the byte at byte address a. The answer is false exactly where it is outside; then nothing changes.
    pub fn set_byte(&mut self, a: u32, b: u8) -> bool
        ensures inside { IsTrue result ↔ (a < 4 * length self.old) }
        ensures after { self.new ≡ set_byte_at self.old a b }
    {
        let Some(w) = self.get(a / 4) else {
            return false;
        };
        let mut bytes = w.to_le_bytes();
        bytes[(a % 4) as usize] = b;
        self.set(a / 4, u32::from_le_bytes(bytes))
    }

    /// Takes over the words of another store of as many words.
    pub fn copy_from(&mut self, other: &Store)
        requires { length self.old ≡ length other.now }
        ensures { self.new ≡ other.now }
    {
        self.words.copy_from_slice(other.words.as_slice());
    }

    /// The n words from address a on, lent; `None` exactly where they pass the end of the store.
    pub fn words(&self, a: u32, n: u32) -> Option<&[u32]>
        ensures outside { IsNone result ↔ (length self.now < a + n) }
        ensures inside { IfSome result (λ w. w.now ≡ slice_range self.now a (a + n)) }
    {
        let start = a as usize;
        let end = start + n as usize;
        if end > self.words.len() {
            return None;
        }
        Some(&self.words[start..end])
    }
}

// Byte i of a word, the lowest first.
#[inline]
#[tactic(auto, using(crate::proofs::ByteOf::byte_of_by_shift))]
fn byte_of(w: u32, i: u32) -> u8
    requires { i < 4 }
    ensures { result ≡ byte_of w i }
{
    ((w >> (8 * i)) % 256) as u8
}
