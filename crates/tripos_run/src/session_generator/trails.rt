// Lists for clauses alone.
ghost use Rattle.std.specs.Prelude.{◌≡◌, [], ◌∷◌, ◌++◌};
ghost use Rattle.tripos_run.specs.SessionGenerator.Trails.{bytes_of};

use std::snapshot::Snapshot;

/// A list of bytes. Clauses see all of them; in memory there is the last one alone.
#[derive(Drop)]
pub(crate) enum Trail {
    /// No byte.
    Start,
    /// A byte more.
    More(Snapshot<Trail>, u8),
}

impl Trail {
    /// No bytes.
    pub(crate) fn new() -> Trail
        ensures { bytes_of result ≡ [] }
    {
        Trail::Start
    }

    /// Adds a byte at the end.
    pub(crate) fn add(&mut self, byte: u8)
        ensures { bytes_of self.new ≡ bytes_of self.old ++ byte ∷ [] }
    {
        let before = Snapshot::of(&*self);
        *self = Trail::More(before, byte);
    }
}
