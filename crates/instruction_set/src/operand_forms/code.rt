// Where code is.
ghost use Rattle.std.specs.Prelude.{◌≡◌, ℕ, Option};
ghost use Rattle.word_store.specs.Bytes.{byte_at};

use word_store::Store;

/// Bytes of code, addressed from 0.
pub trait Code {
    /// The byte at a byte address, where it is inside.
    ghost code_bytes: { Self → ℕ → Option ℕ };

    /// The byte at byte address a, or `None` exactly where it is outside.
    fn byte(&self, a: u32) -> Option<u8>
        ensures { result ≡ code_bytes self.now a };
}

impl Code for Store {
    ghost code_bytes = { byte_at };

    #[inline]
    fn byte(&self, a: u32) -> Option<u8> {
        self.get_byte(a)
    }
}
