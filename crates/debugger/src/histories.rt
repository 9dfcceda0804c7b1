// Lines of the debugger, on a machine whose steps can be undone.
ghost use Rattle.std.specs.Prelude.{◌≡◌, ◌<◌, ◌+◌, ◌≤◌, ◌++◌, [], Some, None, Ok, IfOk, codes, false, if◌then◌else◌, min};
ghost use Rattle.std.specs.List.{AllByRecursion};
ghost use Rattle.module_text.specs.TextReader.Lines.{lines_of};
ghost use Rattle.debugger.specs.MachineHistory.Pasts.{now_of, past_back, state_back};
ghost use Rattle.byte_streams.specs.Sinks.{FailsBySink, GathersFor};
ghost use Rattle.kernel_model.specs.KernelRecord.Ranges.{most_steps};
ghost use Rattle.tripos_machine.specs.State.{steps_of, stop_of};
ghost use Rattle.tripos_machine.specs.Step.{run};
ghost use Rattle.debugger.specs.Debugged.{Debugging, HasDebugged, debugged, fewer_text, line_obeyed, obeyed, past_after, steps_left, steps_text, steps_to};
ghost use Rattle.debugger.specs.Orders.{order_of};
ghost use Rattle.debugger.specs.OrderLines.{is_back};
ghost use Rattle.debugger.specs.Runs.{EndsSteps, EndsToldBack, IsWithin};
ghost use Rattle.debugger.specs.Texts.{place_text};

use crate::Order;
use crate::breakpoints::Breakpoints;
use crate::limits::Limits;
use crate::machine_history::History;
use crate::orders::order_of;
use crate::places::{gather_place, gather_return};
use crate::runs::{is_end, steps_left};
use crate::sessions::obey;
use byte_streams::{Output, Sink, SinkFault, gather};
use module_text::split_line;
use tripos_machine::Machine;

/// Does what the lines ask for, as `debug` does, and `BACK n` undoes at most n of the steps that were taken in this call: as many as
/// the history keeps, which is that of the machine and begins with it. The budget is of the steps taken, less those that were undone,
/// so that these may be taken again. The bytes that went to the console stay written. `SinkFault` comes only where the sink's count
/// of faults rose; then a prefix is written. In either case the machine that is returned is as it is after some of its steps.
pub fn debug_back<K: Sink>(
    machine: Machine,
    history: &mut History,
    lines: &[u8],
    budget: u64,
    out: &mut K,
    pending: &mut Output,
) -> (Machine, Result<(), SinkFault>)
    requires steps { steps_of machine.state + budget ≤ most_steps }
    requires begins { history.old ≡ record { past = []; now = now_of machine.state machine.keys } }
    ensures text { GathersFor K.Sink out.old out.new pending.old pending.new
        (debugged budget (lines_of lines.now) machine.state (Some [])).bytes result.1 }
    ensures state { IfOk result.1 (λ _. result.0.state
        ≡ (debugged budget (lines_of lines.now) machine.state (Some [])).after.state) }
    ensures past { IfOk result.1 (λ _. Some history.new.past
        ≡ (debugged budget (lines_of lines.now) machine.state (Some [])).after.past) }
    ensures now { history.new.now ≡ now_of result.0.state result.0.keys }
    ensures steps { HasDebugged budget machine.state result.0.state }
    ensures cause { FailsBySink K.Sink out.old out.new result.1 }
{
    let first = machine.steps();
    let limits = Limits {
        first,
        last: first + budget,
    };
    let mut stops = Breakpoints::new();
    let mut machine = machine;
    let mut rest = lines;
    while let Some((line, others)) = split_line(rest) {
        let (after, told) = obey_line(line, limits, machine, history, &mut stops, out, pending);
        machine = after;
        if told.is_err() {
            return (machine, told);
        }
        rest = others;
    }
    (machine, Ok(()))
}

// Does what a line asks for; nothing, where it asks for nothing.
fn obey_line<K: Sink>(
    line: &[u8],
    limits: Limits,
    machine: Machine,
    history: &mut History,
    stops: &mut Breakpoints,
    out: &mut K,
    pending: &mut Output,
) -> (Machine, Result<(), SinkFault>)
    requires within { IsWithin limits machine.state }
    requires past { AllByRecursion (IsWithin limits) history.old.past }
    requires now { history.old.now ≡ now_of machine.state machine.keys }
    ensures text { let d : Debugging = record { state = machine.state; stops = stops.old; past = Some history.old.past } in
        GathersFor K.Sink out.old out.new pending.old pending.new
        (line_obeyed limits (order_of 0 line.now) d).bytes result.1 }
    ensures end { let d : Debugging = record { state = machine.state; stops = stops.old; past = Some history.old.past } in
        EndsToldBack limits d (line_obeyed limits (order_of 0 line.now) d)
        result.0.state stops.new history.new.past result.1 }
    ensures now { history.new.now ≡ now_of result.0.state result.0.keys }
    ensures cause { FailsBySink K.Sink out.old out.new result.1 }
{
    match order_of(0, line) {
        Ok(Order::Back(n)) => go_back(n, limits, machine, history, out, pending),
        Ok(order) => {
            let mut machine = machine;
            let told = go_on(order, limits, &mut machine, history, stops, out, pending);
            (machine, told)
        }
        Err(_) => (machine, Ok(())),
    }
}

// Undoes steps, and gathers that there were fewer, and where the machine is then.
fn go_back<K: Sink>(
    n: u32,
    limits: Limits,
    machine: Machine,
    history: &mut History,
    out: &mut K,
    pending: &mut Output,
) -> (Machine, Result<(), SinkFault>)
    requires within { IsWithin limits machine.state }
    requires past { AllByRecursion (IsWithin limits) history.old.past }
    requires now { history.old.now ≡ now_of machine.state machine.keys }
    ensures text { let past = history.old.past in
        GathersFor K.Sink out.old out.new pending.old pending.new
        (fewer_text n past ++ place_text limits.first (state_back n past machine.state)) result.1 }
    ensures state { result.0.state ≡ state_back n history.old.past machine.state }
    ensures past { history.new.past ≡ past_back n history.old.past }
    ensures now { history.new.now ≡ now_of result.0.state result.0.keys }
    ensures cause { FailsBySink K.Sink out.old out.new result.1 }
{
    let fewer = history.len() < n;
    let machine = history.back(machine, n);
    let told = gather_return(fewer, &machine, limits.first, out, pending);
    (machine, told)
}

// Does what a line asks for that undoes no step.
fn go_on<K: Sink>(
    order: Order,
    limits: Limits,
    machine: &mut Machine,
    history: &mut History,
    stops: &mut Breakpoints,
    out: &mut K,
    pending: &mut Output,
) -> Result<(), SinkFault>
    requires within { IsWithin limits machine.old.state }
    requires on { is_back (Ok order) ≡ false }
    requires now { history.old.now ≡ now_of machine.old.state machine.old.keys }
    ensures text { let d : Debugging = record { state = machine.old.state; stops = stops.old; past = Some history.old.past } in
        GathersFor K.Sink out.old out.new pending.old pending.new
        (obeyed limits order d).bytes result }
    ensures end { let d : Debugging = record { state = machine.old.state; stops = stops.old; past = Some history.old.past } in
        EndsToldBack limits d (obeyed limits order d)
        machine.new.state stops.new history.new.past result }
    ensures now { history.new.now ≡ now_of machine.new.state machine.new.keys }
    ensures cause { FailsBySink K.Sink out.old out.new result }
{
    match order {
        Order::Step(n) => step_noted(machine, history, u64::from(n), limits, out, pending),
        Order::Continue => go_on_noted(machine, history, stops, limits, out, pending),
        _ => obey(order, limits, machine, stops, out, pending),
    }
}

// Takes at most so many steps, and gathers their console bytes, and where the machine is then.
fn step_noted<K: Sink>(
    machine: &mut Machine,
    history: &mut History,
    n: u64,
    limits: Limits,
    out: &mut K,
    pending: &mut Output,
) -> Result<(), SinkFault>
    requires within { IsWithin limits machine.old.state }
    requires now { history.old.now ≡ now_of machine.old.state machine.old.keys }
    ensures state { let most = steps_left limits machine.old.state in
        EndsSteps (min n most) most machine.old.state machine.new.state result }
    ensures text { let n = min n (steps_left limits machine.old.state) in
        GathersFor K.Sink out.old out.new pending.old pending.new
        (steps_text limits n machine.old.state) result }
    ensures past { IfOk result (λ _. history.new.past
        ≡ past_after (min n (steps_left limits machine.old.state)) history.old.past machine.old.state) }
    ensures now { history.new.now ≡ now_of machine.new.state machine.new.keys }
    ensures cause { FailsBySink K.Sink out.old out.new result }
{
    let steps = n.min(steps_left(machine, limits));
    take_noted(machine, history, &Breakpoints::new(), steps, out, pending)?;
    gather_place(machine, limits.first, out, pending)
}

// Takes steps up to a breakpoint or a stop, and gathers their console bytes, and where the machine is then.
fn go_on_noted<K: Sink>(
    machine: &mut Machine,
    history: &mut History,
    stops: &Breakpoints,
    limits: Limits,
    out: &mut K,
    pending: &mut Output,
) -> Result<(), SinkFault>
    requires within { IsWithin limits machine.old.state }
    requires now { history.old.now ≡ now_of machine.old.state machine.old.keys }
    ensures state { let most = steps_left limits machine.old.state in
        EndsSteps (steps_to stops.now most machine.old.state) most
        machine.old.state machine.new.state result }
    ensures text { let n = steps_to stops.now (steps_left limits machine.old.state) machine.old.state in
        GathersFor K.Sink out.old out.new pending.old pending.new
        (steps_text limits n machine.old.state) result }
    ensures past { let n = steps_to stops.now (steps_left limits machine.old.state) machine.old.state in
        IfOk result (λ _. history.new.past ≡ past_after n history.old.past machine.old.state) }
    ensures now { history.new.now ≡ now_of machine.new.state machine.new.keys }
    ensures cause { FailsBySink K.Sink out.old out.new result }
{
    let most = steps_left(machine, limits);
    take_noted(machine, history, stops, most, out, pending)?;
    gather_place(machine, limits.first, out, pending)
}

// Takes steps up to a breakpoint or a stop, at most so many, and gathers their console bytes. Each is noted.
fn take_noted<K: Sink>(
    machine: &mut Machine,
    history: &mut History,
    stops: &Breakpoints,
    most: u64,
    out: &mut K,
    pending: &mut Output,
) -> Result<(), SinkFault>
    requires steps { steps_of machine.old.state + most ≤ most_steps }
    requires goes { 0 < most → stop_of machine.old.state ≡ None }
    requires now { history.old.now ≡ now_of machine.old.state machine.old.keys }
    ensures state { EndsSteps (steps_to stops.now most machine.old.state) most
        machine.old.state machine.new.state result }
    ensures text { GathersFor K.Sink out.old out.new pending.old pending.new
        (run (steps_to stops.now most machine.old.state) machine.old.state).bytes result }
    ensures past { IfOk result (λ _. history.new.past
        ≡ past_after (steps_to stops.now most machine.old.state) history.old.past machine.old.state) }
    ensures now { history.new.now ≡ now_of machine.new.state machine.new.keys }
    ensures cause { FailsBySink K.Sink out.old out.new result }
{
    let mut taken = 0;
    while taken < most {
        history.step(machine);
        taken += 1;
        gather(out, pending, machine.output())?;
        if is_end(machine, stops) {
            return Ok(());
        }
    }
    Ok(())
}
