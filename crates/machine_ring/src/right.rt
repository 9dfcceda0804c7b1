// The right machine, at which bytes are typed.
ghost use Rattle.std.specs.Prelude.{◌≡◌, ◌≤◌};
ghost use Rattle.byte_streams.specs.Sinks.{FailsBySink, GathersFor};
ghost use Rattle.kernel_model.specs.KernelRecord.Ranges.{most_steps};
ghost use Rattle.machine_ring.specs.Rounds.{has_room, right_after, shown_by};

use crate::left::can_step;
use byte_streams::{Output, Sink, SinkFault, gather};
use kernel_lists::NoLog;
use tripos_machine::Machine;

/// The place of the last byte that may be typed ahead.
const LAST_PLACE: u32 = 127;

/// Whether there is room for a byte more that is typed ahead. A machine without a kernel has no room.
pub(crate) fn has_room(machine: &Machine) -> bool
    ensures { result ≡ has_room machine.now.state }
{
    match machine.kernel_parts() {
        Some(parts) => parts.tty.at(LAST_PLACE).is_none(),
        None => false,
    }
}

/// Takes a step where the machine has neither stopped nor taken so many steps, and gathers its console bytes.
pub(crate) fn step<K: Sink>(
    machine: &mut Machine,
    most: u64,
    out: &mut K,
    pending: &mut Output,
) -> Result<(), SinkFault>
    requires { most ≤ most_steps }
    ensures state { machine.new.state ≡ right_after most machine.old.state }
    ensures bytes { GathersFor K.Sink out.old out.new pending.old pending.new
        (shown_by most machine.old.state) result }
    ensures cause { FailsBySink K.Sink out.old out.new result }
{
    if !can_step(machine, most) {
        return Ok(());
    }
    machine.step(&mut NoLog);
    if machine.output().is_empty() {
        return Ok(());
    }
    gather(out, pending, machine.output())
}
