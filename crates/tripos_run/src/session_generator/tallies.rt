// A sink that keeps the count and the hash of its bytes.
ghost use Rattle.std.specs.Prelude.{◌≡◌, [], ◌∷◌, ◌++◌, Some};
ghost use Rattle.tripos_run.specs.SessionGenerator.Tallies.{count_of, hash_of};

use crate::session_generator::trails::Trail;
use byte_streams::{Sink, WriteStep};
use std::marker::Model;

/// A sink that keeps only how many bytes it was given, and their hash; it never fails. Contracts see it as the list of
/// those bytes.
#[derive(Drop)]
pub struct Tally {
    /// How many bytes it was given.
    count: u64,
    /// Their hash.
    hash: u32,
    /// The bytes, for clauses alone.
    trail: Trail,
}

impl Model for Tally {
    ghost use Rattle.std.specs.Prelude.{◌≡◌, List, ℕ};
    ghost use Rattle.tripos_run.specs.SessionGenerator.Tallies.{count_of, hash_of};
    ghost use Rattle.tripos_run.specs.SessionGenerator.Trails.{bytes_of};

    ghost Value = { List ℕ };

    ghost view = { λ t. bytes_of t.trail };

    ghost invariant = { λ t. (t.count ≡ count_of (bytes_of t.trail)) × (t.hash ≡ hash_of (bytes_of t.trail)) };
}

impl Tally {
    /// A sink that was given nothing.
    pub fn new() -> Tally
        ensures { result ≡ [] }
    {
        Tally {
            count: 0,
            hash: 0,
            trail: Trail::new(),
        }
    }

    /// How many bytes it was given. At 2 ^ 64 - 1 the count stands still.
    pub fn count(&self) -> u64
        ensures { result ≡ count_of self.now }
    {
        self.count
    }

    /// The hash of the bytes: from 0 on, 31 times the hash and the next byte, modulo 2 ^ 32.
    pub fn hash(&self) -> u32
        ensures { result ≡ hash_of self.now }
    {
        self.hash
    }

    /// Adds bytes at the end.
    pub fn add(&mut self, bytes: &[u8])
        ensures { self.new ≡ self.old ++ bytes.now }
    {
        for byte in bytes {
            self.add_byte(*byte);
        }
    }

    fn add_byte(&mut self, byte: u8)
        ensures { self.new ≡ self.old ++ byte ∷ [] }
    {
        self.count = self.count.saturating_add(1);
        self.hash = self.hash.wrapping_mul(31).wrapping_add(u32::from(byte));
        self.trail.add(byte);
    }
}

impl Sink for Tally {
    ghost holds = { λ t. Some t };

    ghost faults = { λ _. 0 };

    fn write(&mut self, piece: &[u8]) -> WriteStep {
        self.add(piece);
        WriteStep::All
    }
}
