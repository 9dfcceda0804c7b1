// Where a machine is.
ghost use Rattle.std.specs.Prelude.{◌≡◌, ◌≤◌, ◌++◌, [], codes, if◌then◌else◌};
ghost use Rattle.byte_streams.specs.Pending.{Gathers};
ghost use Rattle.byte_streams.specs.Sinks.{FailsBySink, GathersFor};
ghost use Rattle.tripos_machine.specs.State.{regs_of, running_of, steps_of};
ghost use Rattle.debugger.specs.Texts.{at_line, place_text, registers_line};

use byte_streams::Piece::{Decimal, Text};
use byte_streams::{Output, Sink, SinkFault, gather, gather_pieces};
use tripos_machine::Machine;

/// Gathers where the machine is: the steps since it had taken the first ones, PC, and the task that runs; or that it has stopped. `SinkFault` comes
/// only where the sink's count of faults rose; then a prefix is written.
pub fn gather_place<K: Sink>(
    machine: &Machine,
    first: u64,
    out: &mut K,
    pending: &mut Output,
) -> Result<(), SinkFault>
    requires { first ≤ steps_of machine.now.state }
    ensures text { GathersFor K.Sink out.old out.new pending.old pending.new
        (place_text first machine.now.state) result }
    ensures cause { FailsBySink K.Sink out.old out.new result }
{
    if machine.stop().is_some() {
        return gather(out, pending, b"\nstopped\n");
    }
    let steps = machine.steps() - first;
    gather_at(steps, machine.regs().pc, machine.running(), out, pending)
}

/// Gathers that fewer steps could be undone than were to be, where that is so, and where the machine is.
pub(crate) fn gather_return<K: Sink>(
    fewer: bool,
    machine: &Machine,
    first: u64,
    out: &mut K,
    pending: &mut Output,
) -> Result<(), SinkFault>
    requires { first ≤ steps_of machine.now.state }
    ensures text { GathersFor K.Sink out.old out.new pending.old pending.new
        ((if fewer then codes "? no more\n" else []) ++ place_text first machine.now.state) result }
    ensures cause { FailsBySink K.Sink out.old out.new result }
{
    gather(out, pending, no_more(fewer))?;
    gather_place(machine, first, out, pending)
}

fn no_more(fewer: bool) -> &'static [u8]
    ensures { result.now ≡ (if fewer then codes "? no more\n" else []) }
{
    if fewer { b"? no more\n" } else { b"" }
}

fn gather_at<K: Sink>(
    steps: u64,
    pc: u32,
    task: u32,
    out: &mut K,
    pending: &mut Output,
) -> Result<(), SinkFault>
    ensures text { GathersFor K.Sink out.old out.new pending.old pending.new
        (at_line steps pc task) result }
    ensures cause { FailsBySink K.Sink out.old out.new result }
{
    gather_pieces(
        out,
        pending,
        &[
            Text(b"\nat "),
            Decimal(steps),
            Text(b" PC "),
            Decimal(u64::from(pc)),
            Text(b" task "),
            Decimal(u64::from(task)),
            Text(b"\n"),
        ],
    )
}

/// Gathers the registers, and the task that runs.
pub fn gather_registers<K: Sink>(
    machine: &Machine,
    out: &mut K,
    pending: &mut Output,
) -> Result<(), SinkFault>
    ensures text { GathersFor K.Sink out.old out.new pending.old pending.new
        (registers_line (regs_of machine.now.state) (running_of machine.now.state)) result }
    ensures cause { FailsBySink K.Sink out.old out.new result }
{
    let regs = machine.regs();
    gather_pieces(
        out,
        pending,
        &[
            Text(b"REGS A="),
            Decimal(u64::from(regs.a)),
            Text(b" B="),
            Decimal(u64::from(regs.b)),
            Text(b" C="),
            Decimal(u64::from(regs.c)),
            Text(b" P="),
            Decimal(u64::from(regs.p)),
            Text(b" G="),
            Decimal(u64::from(regs.g)),
            Text(b" PC="),
            Decimal(u64::from(regs.pc)),
            Text(b" T="),
            Decimal(u64::from(machine.running())),
            Text(b"\n"),
        ],
    )
}
