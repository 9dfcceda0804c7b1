// A log that gathers a line for each event, and tells which sink the lines go to.
ghost use Rattle.std.specs.Prelude.{◌≡◌, Option, Some, None, OnOk, MatchResult, [], ◌++◌, ◌∷◌, false, true};
ghost use Rattle.std.specs.List.{flat_map};
ghost use Rattle.kernel_lists.specs.PacketQueue.Log.{Notes};
ghost use Rattle.byte_streams.specs.Write.{HasCause};
ghost use Rattle.program_answers.specs.TraceLog.Marks.{marks};
ghost use Rattle.program_answers.specs.TraceLog.Trails.{events_of};
ghost use Rattle.program_answers.specs.TraceLog.Traced.{GivesPending, Traced};

use crate::trace_log::{EventWords, Trail};
use byte_streams::{Output, Sink, SinkFault};
use kernel_lists::{EventLog, KernelEvent};
use std::snapshot::Snapshot;

/// A log that gathers a line for each event, in the words that it is given, and writes them to a sink when it has 8,192 bytes of
/// them. Where a write fails, the next note fails.
///
/// It tells its events after marks, which say which reference it writes to, what its sink held at first, and what its words tell.
/// What it tells only grows. So a call that is generic over its log leaves the log with its sink, and says which lines it was given:
/// `print_events` shows how a caller learns from this what the sink holds.
#[derive(Drop)]
pub struct TraceLog<'a, K: Sink, W: EventWords> {
    /// The sink.
    pub out: &'a mut K,
    /// How the events are written.
    pub words: W,
    /// The lines that have not gone to the sink yet.
    pub pending: Output,
    /// Whether a write has failed.
    pub cut: bool,
    /// Whether a note has failed.
    pub failed: bool,
    /// The sink as it was at first, for clauses alone.
    pub first: Snapshot<K>,
    /// What was pending at first, for clauses alone.
    pub before: Snapshot<Output>,
    /// The events.
    pub trail: Trail,
    pub ghost traced: { ∥ Traced (K.holds first.value) (K.holds out.now) (K.faults first.value)
        (K.faults out.now) before.value pending (W.line words) (events_of trail) cut failed
        ∥₁ },
}

impl<'a, K: Sink, W: EventWords> TraceLog<'a, K, W> {
    /// A log that has noted nothing yet. What is pending goes to the sink before its lines.
    pub fn new(out: &'a mut K, words: W, pending: Output) -> TraceLog<'a, K, W>
        ensures same_reference { result.out.ghost_name ≡ out.entry.ghost_name }
        ensures first { result.first.value ≡ out.old }
        ensures before { result.before.value ≡ pending }
        ensures words { result.words ≡ words }
        ensures no_events { events_of result.trail ≡ [] }
        ensures works { result.failed ≡ false }
    {
        let first = Snapshot::of(&*out);
        let before = Snapshot::of(&pending);
        TraceLog {
            out,
            words,
            pending,
            cut: false,
            failed: false,
            first,
            before,
            trail: Trail::new(),
        }
    }

    /// What has not gone to the sink yet. `SinkFault` comes exactly where a write has failed, and so where the sink's count of
    /// faults rose; then the sink holds a prefix of what was pending and of the lines.
    pub fn into_pending(self) -> Result<Output, SinkFault>
        ensures sink { self.exit.0.now ≡ self.entry.out.now }
        ensures text { GivesPending (K.holds self.entry.first.value) (K.holds self.entry.out.now)
            (self.entry.before.value ++ flat_map (W.line self.entry.words) (events_of self.entry.trail))
            result }
        ensures cause { HasCause (K.faults self.entry.first.value) (K.faults self.entry.out.now)
            result }
        ensures whole { OnOk result (self.entry.failed ≡ false) }
    {
        let TraceLog { pending, cut, .. } = self;
        unless_cut(cut, pending)
    }
}

fn unless_cut(cut: bool, pending: Output) -> Result<Output, SinkFault>
    ensures { MatchResult result (λ p. (cut ≡ false) × (p ≡ pending)) (λ _. cut ≡ true) }
{
    if cut { Err(SinkFault) } else { Ok(pending) }
}

impl<K: Sink, W: EventWords> EventLog for TraceLog<'_, K, W> {
    ghost use Rattle.program_answers.specs.TraceLog.Marks.{kept};

    ghost noted = { λ log. Some (marks (kept log.out.ghost_name (K.faults log.first.value)
        (K.holds log.first.value) log.before.value (W.numbers log.words)) ++ events_of log.trail) };

    ghost has_failed = { λ log. log.failed };

    fn note(&mut self, e: KernelEvent) {
        if self.cut {
            self.failed = true;
            return;
        }
        self.cut = self
            .words
            .gather_event(e, &mut *self.out, &mut self.pending)
            .is_err();
        self.trail.add(e);
    }

    fn failed(&self) -> bool {
        self.failed
    }
}
