// Where bytes come from.
ghost use Rattle.std.specs.Prelude.{◌≡◌, ◌<◌, List, ℕ, Option, length};
ghost use Rattle.byte_streams.specs.Faults.{one_more};
ghost use Rattle.byte_streams.specs.Read.{Reads, HasReadCause};

/// What a read answers.
#[derive(Clone, Copy, Debug, PartialEq, Eq)]
pub enum ReadStep {
    /// That many bytes, at least one, now are at the front of the piece.
    Got(usize),
    /// No byte is left.
    End,
    /// The source failed, and gave nothing.
    Failed,
}

/// A source of bytes. It counts its reads, and of these the ones that fail.
pub trait Source {
    /// The bytes that are left, where the source tells them.
    ghost left: { Self → Option (List ℕ) };

    /// How often the source was read: at 2 ^ 64 - 1 the count stands still.
    ghost calls: { Self → ℕ };

    /// How often the source has failed: at 2 ^ 64 - 1 the count stands still.
    ghost faults: { Self → ℕ };

    /// Reads at most as many bytes as the piece holds into its front.
    fn read(&mut self, into: &mut [u8]) -> ReadStep
        requires { 0 < length into.old }
        ensures bytes { Reads (left self.old) (left self.new) result into.new }
        ensures count { calls self.new ≡ one_more (calls self.old) }
        ensures cause { HasReadCause (faults self.old) (faults self.new) result };
}
