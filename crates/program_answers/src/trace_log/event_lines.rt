// The lines of events, by way of a log. `note_all` is generic over its log, and the others show what a caller learns from it.
ghost use Rattle.std.specs.Prelude.{◌≡◌, Some};
ghost use Rattle.byte_streams.specs.Sinks.{FailsBySink, PrintsTo};
ghost use Rattle.kernel_model.specs.KernelRecord.NotedEvents.{NotesAll};
ghost use Rattle.program_answers.specs.TraceLog.Trails.{events_of};
ghost use Rattle.program_answers.specs.TraceLog.Traced.{GivesPending, lines_of};
ghost use Rattle.kernel_model.specs.KernelRecord.LoggedEvents.{LogsAll};

use crate::trace_log::{TraceLog, TraceWords};
use byte_streams::{Output, Sink, SinkFault, pass_on};
use kernel_lists::{EventLog, KernelEvent};

/// Notes the events in order.
pub fn note_all<L: EventLog>(log: &mut L, events: &[KernelEvent])
    ensures { LogsAll L.EventLog log.old log.new events.now }
{
    for event in events {
        log.note(*event);
    }
}

/// Writes a line for each of the events. `SinkFault` comes only where the sink's count of faults rose; then a prefix of the
/// lines is written.
pub fn print_events<K: Sink>(out: &mut K, events: &[KernelEvent]) -> Result<(), SinkFault>
    ensures text { PrintsTo K.Sink out.old out.new (lines_of events.now) result }
    ensures cause { FailsBySink K.Sink out.old out.new result }
{
    let mut pending = gather_events(out, events)?;
    pass_on(out, &mut pending)
}

// The lines of the events, of which the last are given back.
fn gather_events<K: Sink>(out: &mut K, events: &[KernelEvent]) -> Result<Output, SinkFault>
    ensures text { GivesPending (K.holds out.old) (K.holds out.new) (lines_of events.now) result }
    ensures cause { FailsBySink K.Sink out.old out.new result }
{
    let mut log = TraceLog::new(out, TraceWords, Output::new());
    note_lines(&mut log, events);
    log.into_pending()
}

// Notes the events, and says besides that the log writes where it did: its marks are still there.
fn note_lines<K: Sink>(log: &mut TraceLog<K, TraceWords>, events: &[KernelEvent])
    ensures same_reference { log.new.out.ghost_name ≡ log.old.out.ghost_name }
    ensures same_first { K.holds log.new.first.value ≡ K.holds log.old.first.value }
    ensures same_faults { K.faults log.new.first.value ≡ K.faults log.old.first.value }
    ensures same_before { log.new.before.value ≡ log.old.before.value }
    ensures events { NotesAll (Some (events_of log.old.trail)) (Some (events_of log.new.trail))
        log.old.failed log.new.failed events.now }
{
    note_all(log, events);
}
