// Lists for clauses alone.
ghost use Rattle.std.specs.Prelude.{◌≡◌, [], ◌∷◌, ◌++◌};
ghost use Rattle.program_answers.specs.TraceLog.Trails.{events_of};

use kernel_lists::KernelEvent;
use std::snapshot::Snapshot;

/// A list of events. Clauses see all of them; in memory there is the last one alone.
#[derive(Drop)]
pub enum Trail {
    /// No event.
    Start,
    /// An event more.
    More(Snapshot<Trail>, KernelEvent),
}

impl Trail {
    /// No events.
    pub fn new() -> Trail
        ensures { events_of result ≡ [] }
    {
        Trail::Start
    }

    /// Adds an event at the end.
    pub fn add(&mut self, e: KernelEvent)
        ensures { events_of self.new ≡ events_of self.old ++ e ∷ [] }
    {
        let before = Snapshot::of(&*self);
        *self = Trail::More(before, e);
    }
}
