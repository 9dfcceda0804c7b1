// The tasks of a machine.
ghost use Rattle.byte_streams.specs.Pending.{Gathers};
ghost use Rattle.byte_streams.specs.Sinks.{FailsBySink, GathersFor};
ghost use Rattle.debugger.specs.Texts.{tasks_text};

use byte_streams::{Output, Sink, SinkFault, gather};
use shell::write_tasks;
use tripos_machine::Machine;

/// Gathers the line of each task, as the shell lists them; none on a machine without a kernel.
pub(crate) fn gather_tasks<K: Sink>(
    machine: &Machine,
    out: &mut K,
    pending: &mut Output,
) -> Result<(), SinkFault>
    ensures text { GathersFor K.Sink out.old out.new pending.old pending.new
        (tasks_text machine.now.state) result }
    ensures cause { FailsBySink K.Sink out.old out.new result }
{
    match machine.kernel_parts() {
        Some(parts) => {
            let mut lines = Output::new();
            write_tasks(&parts.store, &mut lines);
            gather(out, pending, lines.bytes())
        }
        None => Ok(()),
    }
}
