// The machine of a session, at its steps.
ghost use Rattle.std.specs.Prelude.{◌≡◌, ◌≤◌, ◌+◌, None, IfOk, OnOk};
ghost use Rattle.session_text.specs.Canonical.{IsLawful};
ghost use Rattle.kernel_model.specs.KernelRecord.Ranges.{most_steps};
ghost use Rattle.tripos_machine.specs.State.{steps_of};
ghost use Rattle.tripos_machine.specs.Step.{run};
ghost use Rattle.debugger.specs.Debugged.{Debugging, obeyed};
ghost use Rattle.show_run.specs.TypedWords.Runs.{Boots, IsAfter, IsRun, limits_of};

use crate::typed_words::debuggees::Debuggee;
use crate::typed_words::gathered::Gathered;
use byte_streams::{SinkFault, WantMemory};
use debugger::{Breakpoints, History, Limits, Order, debug_back, obey, steps_left, take_steps_to};
use session_text::{BootEnd, Session};
use std::alloc::{AllocError, Global};
use tripos_machine::{Machine, boot};

/// The machine of a session after so many steps from its boot.
pub fn machine_after(alloc: Global, session: &Session, steps: u64) -> Result<Machine, AllocError>
    requires lawful { IsLawful session.now }
    requires boots { Boots session.now }
    requires few { steps ≤ session.now.go }
    ensures { IfOk result (λ m. IsAfter session.now steps m.state) }
{
    match boot(alloc, session) {
        Ok(machine) => Ok(after_steps(machine, steps)),
        Err(BootEnd::WantMemory) => Err(AllocError),
        Err(BootEnd::Line { .. }) => unreachable!(),
    }
}

// A machine after so many steps.
fn after_steps(machine: Machine, steps: u64) -> Machine
    requires { steps_of machine.state + steps ≤ most_steps }
    ensures { result.state ≡ (run steps machine.state).state }
{
    let mut machine = machine;
    machine.run_unheard(steps);
    machine
}

/// Does what an order of the debugger asks for, and gives what it writes. Both are as the debugger's definitions say it of the machine and the
/// breakpoints as they are now. `BACK` undoes nothing here.
pub fn obeyed(
    alloc: Global,
    session: &Session,
    debuggee: &mut Debuggee,
    order: Order,
) -> Result<Vec<u8>, AllocError>
    requires lawful { IsLawful session.now }
    requires run { IsRun session.now debuggee.old.machine.state }
    ensures bytes { let d : Debugging = record { state = debuggee.old.machine.state; stops = debuggee.old.stops; past = None } in
        IfOk result (λ v. v.items ≡ (obeyed (limits_of session.now) order d).bytes) }
    ensures state { let d : Debugging = record { state = debuggee.old.machine.state; stops = debuggee.old.stops; past = None } in
        OnOk result (debuggee.new.machine.state ≡ (obeyed (limits_of session.now) order d).after.state) }
    ensures stops { let d : Debugging = record { state = debuggee.old.machine.state; stops = debuggee.old.stops; past = None } in
        OnOk result (debuggee.new.stops ≡ (obeyed (limits_of session.now) order d).after.stops) }
    ensures run { OnOk result (IsRun session.now debuggee.new.machine.state) }
{
    let limits = Limits {
        first: 0,
        last: session.go,
    };
    let mut gathered = Gathered::new(alloc);
    match obey(
        order,
        limits,
        &mut debuggee.machine,
        &mut debuggee.stops,
        &mut gathered.sink,
        &mut gathered.pending,
    ) {
        Ok(()) => {
            let told = gathered.take(alloc)?;
            Ok(told)
        }
        Err(SinkFault) => Err(AllocError),
    }
}

/// Goes on to a breakpoint, or to the end of the run, and gathers what goes to the console. A machine that has stopped takes no step.
pub fn go_to(
    session: &Session,
    machine: &mut Machine,
    stops: &Breakpoints,
    gathered: &mut Gathered,
) -> Result<(), AllocError>
    requires lawful { IsLawful session.now }
    requires run { IsRun session.now machine.old.state }
    ensures { OnOk result (IsRun session.now machine.new.state) }
{
    let limits = Limits {
        first: 0,
        last: session.go,
    };
    let most = steps_left(machine, limits);
    match take_steps_to(
        machine,
        stops,
        most,
        &mut gathered.sink,
        &mut gathered.pending,
    ) {
        Ok(()) => Ok(()),
        Err(SinkFault) => Err(AllocError),
    }
}

/// The machine of a session after lines of the debugger, some of which may undo steps, and what they write.
pub fn machine_by_lines(
    alloc: Global,
    session: &Session,
    lines: &[u8],
) -> Result<(Machine, Vec<u8>), AllocError>
    requires lawful { IsLawful session.now }
    requires boots { Boots session.now }
    ensures { IfOk result (λ x. IsRun session.now x.0.state) }
{
    let machine = machine_after(alloc, session, 0)?;
    let mut history = match History::new(alloc, &machine) {
        Ok(history) => history,
        Err(WantMemory) => return Err(AllocError),
    };
    let mut gathered = Gathered::new(alloc);
    let (machine, told) = debug_back(
        machine,
        &mut history,
        lines,
        session.go,
        &mut gathered.sink,
        &mut gathered.pending,
    );
    if told.is_err() {
        return Err(AllocError);
    }
    let bytes = gathered.take(alloc)?;
    Ok((machine, bytes))
}
