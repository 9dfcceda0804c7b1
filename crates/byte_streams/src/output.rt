// Bytes on their way to a sink.
ghost use Rattle.std.specs.Prelude.{◌≡◌, ◌+◌, ◌≤◌, [], ◌++◌, length};

use arrayvec::ArrayVec;
use std::marker::Model;

/// At most 8,192 bytes, seen as their list.
#[derive(Drop)]
pub struct Output {
    /// The bytes that wait.
    bytes: ArrayVec<u8, 8192>,
}

impl Model for Output {
    ghost use Rattle.std.specs.Prelude.{ℕ, List};

    ghost Value = { List ℕ };

    ghost view = { λ o. o.bytes.items };
}

impl Output {
    /// No bytes.
    pub fn new() -> Output
        ensures { result ≡ [] }
    {
        Output {
            bytes: ArrayVec::new(),
        }
    }

    /// How many bytes it has room for besides its own.
    pub fn room(&self) -> usize
        ensures { result + length self.now ≡ 8192 }
    {
        self.bytes.remaining_capacity()
    }

    /// Adds a text at the end.
    pub fn append(&mut self, text: &[u8])
        requires { length self.old + length text.now ≤ 8192 }
        ensures { self.new ≡ self.old ++ text.now }
    {
        match self.bytes.try_extend_from_slice(text) {
            Ok(()) => {}
            Err(_) => unreachable!(),
        }
    }

    /// The bytes, lent.
    pub fn bytes(&self) -> &[u8]
        ensures { result.now ≡ self.now }
    {
        self.bytes.as_slice()
    }

    /// Drops all bytes.
    pub fn clear(&mut self)
        ensures { self.new ≡ [] }
    {
        self.bytes.clear();
    }
}
