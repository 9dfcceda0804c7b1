// Where the bytes of a text are.
ghost use Rattle.std.specs.Prelude.{◌≡◌, ◌<◌, ◌^◌, ℕ, List, length, slice_get};

use std::marker::Model;

/// The bytes of a text, fewer than 2 ^ 32, by their places from 0 on.
pub trait TextBytes {
    /// The bytes.
    ghost text: { Self → List ℕ };

    /// The number of bytes.
    fn len(&self) -> u32
        ensures { result ≡ length (text self.now) };

    /// The byte at place i, or `None` exactly where the text has ended before.
    fn at(&self, i: u32) -> Option<u8>
        ensures { result ≡ slice_get (text self.now) i };
}

/// A text in memory, seen as its bytes.
#[derive(Drop)]
pub struct SliceText<'a> {
    /// The bytes of the text.
    bytes: &'a [u8],
}

impl<'a> Model for SliceText<'a> {
    ghost use Rattle.std.specs.Prelude.{ℕ, List, length, ◌<◌, ◌^◌};

    ghost Value = { List ℕ };

    ghost view = { λ t. t.bytes.now };

    ghost invariant = { λ t. length t.bytes.now < 2 ^ 32 };
}

impl<'a> SliceText<'a> {
    /// The text of these bytes.
    pub fn new(bytes: &'a [u8]) -> SliceText<'a>
        requires { length bytes.now < 2 ^ 32 }
        ensures { result ≡ bytes.now }
    {
        SliceText { bytes }
    }
}

impl TextBytes for SliceText<'_> {
    ghost text = { λ t. t };

    fn len(&self) -> u32 {
        self.bytes.len() as u32
    }

    fn at(&self, i: u32) -> Option<u8> {
        self.bytes.get(i as usize).copied()
    }
}
