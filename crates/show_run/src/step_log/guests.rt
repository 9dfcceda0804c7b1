// What a guest does in the next step.
ghost use Rattle.std.specs.Option.{option_map};
ghost use Rattle.std.specs.Prelude.{◌≡◌, ◌<◌, ◌^◌, ◌+◌};
ghost use Rattle.byte_streams.specs.Pending.{Gathers};
ghost use Rattle.byte_streams.specs.Sinks.{FailsBySink, GathersFor};
ghost use Rattle.tripos_machine.specs.State.{steps_of};
ghost use Rattle.show_run.specs.StepLog.Calls.{call_seen};
ghost use Rattle.show_run.specs.StepLog.StepLines.{call_of, guest_line, guest_lines, is_bare, listed_instruction, moment_of};

use crate::step_log::calls::{Call, call_at};
use crate::step_log::changes::tick;
use crate::step_log::moments::{Moment, gather_line, gather_start};
use byte_streams::Piece::Text;
use byte_streams::{Output, Sink, SinkFault};
use debugger::{gather_instructions, is_guest_next};
use tripos_machine::Machine;
use word_store::Store;

/// The step that comes next, and where the machine is.
pub(crate) fn moment(machine: &Machine) -> Moment
    requires { steps_of machine.now.state + 1 < 2 ^ 64 }
    ensures { result ≡ moment_of machine.now.state }
{
    Moment {
        step: machine.steps() + 1,
        tick: tick(machine),
        task: machine.running(),
        pc: machine.regs().pc,
    }
}

/// The call that is made in the next step, if one is.
pub(crate) fn call(machine: &Machine) -> Option<Call>
    ensures { option_map call_seen result ≡ call_of machine.now.state }
{
    if !is_guest_next(machine) {
        return None;
    }
    call_at(is_bare(machine), machine.store(), machine.regs())
}

// Whether the machine has no kernel.
fn is_bare(machine: &Machine) -> bool
    ensures { result ≡ is_bare machine.now.state }
{
    match machine.kernel_parts() {
        Some(_) => false,
        None => true,
    }
}

/// Gathers the line of a guest's next instruction, if a guest is next.
pub(crate) fn gather_guest<K: Sink>(
    m: Moment,
    machine: &Machine,
    out: &mut K,
    pending: &mut Output,
) -> Result<(), SinkFault>
    ensures text { GathersFor K.Sink out.old out.new pending.old pending.new
        (guest_lines m machine.now.state) result }
    ensures cause { FailsBySink K.Sink out.old out.new result }
{
    if !is_guest_next(machine) {
        return Ok(());
    }
    gather_instruction(m, machine.store(), out, pending)
}

// The line of the instruction at PC; at address 0 there is none.
fn gather_instruction<K: Sink>(
    m: Moment,
    store: &Store,
    out: &mut K,
    pending: &mut Output,
) -> Result<(), SinkFault>
    ensures text { GathersFor K.Sink out.old out.new pending.old pending.new
        (guest_line m store.now) result }
    ensures cause { FailsBySink K.Sink out.old out.new result }
{
    if m.pc == 0 {
        return gather_line(m, &[Text(b"die PC is 0")], out, pending);
    }
    match store.get_byte(m.pc) {
        Some(_) => gather_listed(m, store, out, pending),
        None => gather_line(m, &[Text(b"step outside the store")], out, pending),
    }
}

// The instruction as the debugger lists it.
fn gather_listed<K: Sink>(
    m: Moment,
    store: &Store,
    out: &mut K,
    pending: &mut Output,
) -> Result<(), SinkFault>
    ensures text { GathersFor K.Sink out.old out.new pending.old pending.new
        (listed_instruction m store.now) result }
    ensures cause { FailsBySink K.Sink out.old out.new result }
{
    gather_start(m, &[Text(b"step ")], out, pending)?;
    gather_instructions(store, m.pc, 1, out, pending)
}
