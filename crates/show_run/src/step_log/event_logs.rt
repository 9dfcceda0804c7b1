// A log of a step's events.
ghost use Rattle.std.specs.List.{flat_map};
ghost use Rattle.std.specs.Prelude.{◌≡◌, [], ◌++◌, ◌∷◌, MatchResult, OnOk, Some, false, true};
ghost use Rattle.byte_streams.specs.Write.{HasCause};
ghost use Rattle.program_answers.specs.TraceLog.Trails.{events_of};
ghost use Rattle.program_answers.specs.TraceLog.Traced.{GivesPending, Traced};
ghost use Rattle.show_run.specs.StepLog.Events.{event_line};
ghost use Rattle.show_run.specs.StepLog.Packets.{told_of};

use crate::step_log::moments::Moment;
use crate::step_log::packets::{MOST_TOLD, keep};
use arrayvec::ArrayVec;
use byte_streams::{Output, Sink, SinkFault};
use kernel_lists::{EventLog, KernelEvent};
use program_answers::trace_log::{EventWords, Trail};
use std::snapshot::Snapshot;

/// Gathers a line for each event, as a `TraceLog` does, and tells its events as that does. Besides it keeps which packets the first
/// events accept.
#[derive(Drop)]
pub struct StepEvents<'a, K: Sink> {
    /// The sink.
    pub out: &'a mut K,
    /// The moment of the step.
    pub moment: Moment,
    /// The lines that have not gone to the sink yet.
    pub pending: Output,
    /// Whether a write has failed.
    pub cut: bool,
    /// Whether a note has failed.
    pub failed: bool,
    /// The sink as it was at first, for clauses alone.
    pub first: Snapshot<K>,
    /// What was pending at first, for clauses alone.
    pub before: Snapshot<Output>,
    /// The events.
    pub trail: Trail,
    /// For each of the first events, the packet that it accepts, if it accepts one.
    pub told: ArrayVec<Option<u32>, MOST_TOLD>,
    pub ghost traced: { ∥ Traced (K.holds first.value) (K.holds out.now) (K.faults first.value)
        (K.faults out.now) before.value pending (event_line moment) (events_of trail) cut failed
        ∥₁ },
    pub ghost first_told: { told.items ≡ told_of (events_of trail) },
}

impl<'a, K: Sink> StepEvents<'a, K> {
    /// A log that has noted nothing yet. What is pending goes to the sink before its lines.
    pub fn new(out: &'a mut K, moment: Moment, pending: Output) -> StepEvents<'a, K>
        ensures same_reference { result.out.ghost_name ≡ out.entry.ghost_name }
        ensures first { result.first.value ≡ out.old }
        ensures before { result.before.value ≡ pending }
        ensures moment { result.moment ≡ moment }
        ensures no_events { events_of result.trail ≡ [] }
        ensures works { result.failed ≡ false }
    {
        let first = Snapshot::of(&*out);
        let before = Snapshot::of(&pending);
        StepEvents {
            out,
            moment,
            pending,
            cut: false,
            failed: false,
            first,
            before,
            trail: Trail::new(),
            told: ArrayVec::new(),
        }
    }

    /// What has not gone to the sink yet, and the packets that are told. `SinkFault` comes exactly where a write has failed, and so
    /// where the sink's count of faults rose; then the sink holds a prefix of what was pending and of the lines.
    pub fn into_told(self) -> (Result<Output, SinkFault>, ArrayVec<Option<u32>, MOST_TOLD>)
        ensures sink { self.exit.0.now ≡ self.entry.out.now }
        ensures text { GivesPending (K.holds self.entry.first.value) (K.holds self.entry.out.now)
            (self.entry.before.value
            ++ flat_map (event_line self.entry.moment) (events_of self.entry.trail)) result.0 }
        ensures told { result.1.items ≡ told_of (events_of self.entry.trail) }
        ensures cause { HasCause (K.faults self.entry.first.value) (K.faults self.entry.out.now)
            result.0 }
        ensures whole { OnOk result.0 (self.entry.failed ≡ false) }
    {
        let StepEvents {
            pending,
            cut,
            told,
            ..
        } = self;
        (unless_cut(cut, pending), told)
    }
}

fn unless_cut(cut: bool, pending: Output) -> Result<Output, SinkFault>
    ensures { MatchResult result (λ p. (cut ≡ false) × (p ≡ pending)) (λ _. cut ≡ true) }
{
    if cut { Err(SinkFault) } else { Ok(pending) }
}

impl<K: Sink> EventLog for StepEvents<'_, K> {
    ghost use Rattle.program_answers.specs.TraceLog.Marks.{kept, marks};

    ghost noted = { λ log. Some (marks (kept log.out.ghost_name (K.faults log.first.value)
        (K.holds log.first.value) log.before.value
        (log.moment.step ∷ log.moment.tick ∷ log.moment.task ∷ log.moment.pc ∷ []))
        ++ events_of log.trail) };

    ghost has_failed = { λ log. log.failed };

    fn note(&mut self, e: KernelEvent) {
        if self.cut {
            self.failed = true;
            return;
        }
        self.cut = self
            .moment
            .gather_event(e, &mut *self.out, &mut self.pending)
            .is_err();
        self.trail.add(e);
        keep(&mut self.told, e);
    }

    fn failed(&self) -> bool {
        self.failed
    }
}
