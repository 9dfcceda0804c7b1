// The lines of a boot.
ghost use Rattle.std.specs.Prelude.{◌≡◌, Some};
ghost use Rattle.byte_streams.specs.Pending.{Gathers};
ghost use Rattle.byte_streams.specs.Sinks.{FailsBySink, GathersFor};
ghost use Rattle.kernel_model.specs.KernelRecord.NotedEvents.{NotesAll};
ghost use Rattle.program_answers.specs.TraceLog.Trails.{events_of};
ghost use Rattle.tripos_machine.specs.Step.{boot_events};
ghost use Rattle.show_run.specs.StepLog.StepLines.{boot_lines};

use crate::step_log::moments::Moment;
use byte_streams::{Output, Sink, SinkFault};
use program_answers::trace_log::TraceLog;
use std::mem;
use tripos_machine::Machine;

/// The moment of a boot, before the first step.
pub const BOOT: Moment = Moment {
    step: 0,
    tick: 0,
    task: 0,
    pc: 0,
};

/// Gathers a line for each event of the boot of a machine that has taken no step; one without a kernel has none. `SinkFault` comes
/// only where the sink's count of faults rose; then a prefix of what was pending, and of the lines after it, has gone to the sink.
pub fn gather_boot<K: Sink>(
    machine: &Machine,
    out: &mut K,
    pending: &mut Output,
) -> Result<(), SinkFault>
    ensures text { GathersFor K.Sink out.old out.new pending.old pending.new
        (boot_lines machine.now.state) result }
    ensures cause { FailsBySink K.Sink out.old out.new result }
{
    let mut log = TraceLog::new(out, BOOT, mem::replace(pending, Output::new()));
    note_boot(machine, &mut log);
    match log.into_pending() {
        Ok(rest) => {
            *pending = rest;
            Ok(())
        }
        Err(SinkFault) => Err(SinkFault),
    }
}

// Notes the events of a boot, and says besides that the log writes where and what it did: its marks are still there.
fn note_boot<K: Sink>(machine: &Machine, log: &mut TraceLog<K, Moment>)
    ensures same_reference { log.new.out.ghost_name ≡ log.old.out.ghost_name }
    ensures same_first { K.holds log.new.first.value ≡ K.holds log.old.first.value }
    ensures same_faults { K.faults log.new.first.value ≡ K.faults log.old.first.value }
    ensures same_before { log.new.before.value ≡ log.old.before.value }
    ensures same_words { log.new.words ≡ log.old.words }
    ensures events { NotesAll (Some (events_of log.old.trail)) (Some (events_of log.new.trail))
        log.old.failed log.new.failed (boot_events machine.now.state) }
{
    machine.note_boot(log);
}
