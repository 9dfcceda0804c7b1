// Steps of a machine that is debugged.
ghost use Rattle.std.specs.Prelude.{◌≡◌, ◌+◌, ◌<◌, ◌≤◌, None, min};
ghost use Rattle.byte_streams.specs.Sinks.{FailsBySink, GathersFor};
ghost use Rattle.kernel_model.specs.KernelRecord.Ranges.{most_steps};
ghost use Rattle.tripos_machine.specs.State.{steps_of, stop_of};
ghost use Rattle.tripos_machine.specs.Step.{run};
ghost use Rattle.debugger.specs.Debugged.{steps_left, steps_text, steps_to};
ghost use Rattle.debugger.specs.Runs.{EndsSteps, IsWithin};
ghost use Rattle.debugger.specs.Views.{is_at, is_end, is_guest_next};

use crate::breakpoints::Breakpoints;
use crate::limits::Limits;
use crate::places::gather_place;
use byte_streams::{Output, Sink, SinkFault, gather};
use kernel_lists::{FIRST_GUEST, NoLog};
use tripos_machine::Machine;

/// Takes at most so many steps, and gathers their console bytes, and where the machine is then.
pub(crate) fn step<K: Sink>(
    machine: &mut Machine,
    n: u64,
    limits: Limits,
    out: &mut K,
    pending: &mut Output,
) -> Result<(), SinkFault>
    requires { IsWithin limits machine.old.state }
    ensures state { let most = steps_left limits machine.old.state in
        EndsSteps (min n most) most machine.old.state machine.new.state result }
    ensures text { let n = min n (steps_left limits machine.old.state) in
        GathersFor K.Sink out.old out.new pending.old pending.new
        (steps_text limits n machine.old.state) result }
    ensures cause { FailsBySink K.Sink out.old out.new result }
{
    let steps = n.min(steps_left(machine, limits));
    take_steps(machine, steps, out, pending)?;
    gather_place(machine, limits.first, out, pending)
}

/// Takes steps up to a breakpoint or a stop, and gathers their console bytes, and where the machine is then.
pub(crate) fn go_on<K: Sink>(
    machine: &mut Machine,
    stops: &Breakpoints,
    limits: Limits,
    out: &mut K,
    pending: &mut Output,
) -> Result<(), SinkFault>
    requires { IsWithin limits machine.old.state }
    ensures state { let most = steps_left limits machine.old.state in
        EndsSteps (steps_to stops.now most machine.old.state) most
        machine.old.state machine.new.state result }
    ensures text { let n = steps_to stops.now (steps_left limits machine.old.state) machine.old.state in
        GathersFor K.Sink out.old out.new pending.old pending.new
        (steps_text limits n machine.old.state) result }
    ensures cause { FailsBySink K.Sink out.old out.new result }
{
    let most = steps_left(machine, limits);
    take_steps_to(machine, stops, most, out, pending)?;
    gather_place(machine, limits.first, out, pending)
}

// Takes so many steps, and gathers their console bytes.
fn take_steps<K: Sink>(
    machine: &mut Machine,
    n: u64,
    out: &mut K,
    pending: &mut Output,
) -> Result<(), SinkFault>
    requires { steps_of machine.old.state + n ≤ most_steps }
    ensures state { EndsSteps n n machine.old.state machine.new.state result }
    ensures text { GathersFor K.Sink out.old out.new pending.old pending.new
        (run n machine.old.state).bytes result }
    ensures cause { FailsBySink K.Sink out.old out.new result }
{
    machine.run(n, out, pending, &mut NoLog)?;
    Ok(())
}

/// Takes steps up to a breakpoint or a stop, at most so many, and gathers their console bytes. `SinkFault` comes only where the sink's count of faults
/// rose; then a prefix is written, and the machine is as it is after some of the steps.
pub fn take_steps_to<K: Sink>(
    machine: &mut Machine,
    stops: &Breakpoints,
    most: u64,
    out: &mut K,
    pending: &mut Output,
) -> Result<(), SinkFault>
    requires steps { steps_of machine.old.state + most ≤ most_steps }
    requires goes { 0 < most → stop_of machine.old.state ≡ None }
    ensures state { EndsSteps (steps_to stops.now most machine.old.state) most
        machine.old.state machine.new.state result }
    ensures text { GathersFor K.Sink out.old out.new pending.old pending.new
        (run (steps_to stops.now most machine.old.state) machine.old.state).bytes result }
    ensures cause { FailsBySink K.Sink out.old out.new result }
{
    let mut taken = 0;
    while taken < most {
        taken += machine.advance(most - taken, stops.as_slice(), &mut NoLog);
        gather(out, pending, machine.output())?;
        if is_end(machine, stops) {
            return Ok(());
        }
    }
    Ok(())
}

/// Whether a run ends here: at a breakpoint, or as the machine has stopped.
pub(crate) fn is_end(machine: &Machine, stops: &Breakpoints) -> bool
    ensures { result ≡ is_end stops.now machine.now.state }
{
    machine.stop().is_some() || is_at(machine, stops)
}

// Whether the next instruction is a guest's at a breakpoint; at address 0 there is none.
fn is_at(machine: &Machine, stops: &Breakpoints) -> bool
    ensures { result ≡ is_at stops.now machine.now.state }
{
    let pc = machine.regs().pc;
    pc != 0 && stops.has(pc) && is_guest_next(machine)
}

/// Whether a guest is the next to do something; on a machine without a kernel every instruction is a guest's.
pub fn is_guest_next(machine: &Machine) -> bool
    ensures { result ≡ is_guest_next machine.now.state }
{
    machine.kernel_parts().is_none() || machine.running() >= FIRST_GUEST
}

/// The steps that may be taken yet: none on a machine that has stopped.
pub fn steps_left(machine: &Machine, limits: Limits) -> u64
    requires { steps_of machine.now.state ≤ limits.last }
    ensures { result ≡ steps_left limits machine.now.state }
{
    match machine.stop() {
        Some(_) => 0,
        None => limits.last - machine.steps(),
    }
}
