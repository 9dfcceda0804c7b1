// Bytes that a text lends.
ghost use Rattle.std.specs.Prelude.{◌≡◌};

use std::marker::Model;

/// Bytes that are lent, seen as themselves.
#[derive(Drop)]
pub struct Lent<'a> {
    /// The bytes.
    bytes: &'a [u8],
}

impl<'a> Model for Lent<'a> {
    ghost use Rattle.std.specs.Prelude.{ℕ, List};

    ghost Value = { List ℕ };

    ghost view = { λ t. t.bytes.now };
}

impl<'a> Lent<'a> {
    /// These bytes.
    pub fn new(bytes: &'a [u8]) -> Lent<'a>
        ensures { result ≡ bytes.now }
    {
        Lent { bytes }
    }

    /// The same bytes, lent once more.
    pub fn again(&self) -> Lent<'a>
        ensures { result ≡ self.now }
    {
        Lent { bytes: self.bytes }
    }

    /// The bytes.
    pub fn bytes(&self) -> &'a [u8]
        ensures { result.now ≡ self.now }
    {
        self.bytes
    }
}
