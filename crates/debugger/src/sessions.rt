// Lines of the debugger, one after another.
ghost use Rattle.std.specs.Prelude.{◌≡◌, ◌+◌, ◌≤◌, ◌++◌, [], None, IfOk, false};
ghost use Rattle.module_text.specs.TextReader.Lines.{lines_of};
ghost use Rattle.byte_streams.specs.Pending.{Gathers};
ghost use Rattle.byte_streams.specs.Sinks.{FailsBySink, GathersFor};
ghost use Rattle.kernel_model.specs.KernelRecord.Ranges.{most_steps};
ghost use Rattle.tripos_machine.specs.State.{steps_of};
ghost use Rattle.debugger.specs.Breakpoints.{with_breakpoint};
ghost use Rattle.debugger.specs.Debugged.{Debugging, HasDebugged, debugged, fewer_text, full_text, line_obeyed, obeyed};
ghost use Rattle.debugger.specs.OrderLines.{takes_steps};
ghost use Rattle.debugger.specs.Orders.{order_of};
ghost use Rattle.debugger.specs.Runs.{EndsTold, IsWithin};
ghost use Rattle.debugger.specs.Texts.{place_text};

use crate::Order;
use crate::blocks::gather_blocks;
use crate::breakpoints::Breakpoints;
use crate::instructions::gather_instructions;
use crate::limits::Limits;
use crate::orders::order_of;
use crate::places::{gather_registers, gather_return};
use crate::queues::{gather_device_queue, gather_task_queue};
use crate::runs::{go_on, step};
use crate::tasks::gather_tasks;
use crate::words::gather_words;
use byte_streams::{Output, Sink, SinkFault, gather};
use module_text::split_line;
use tripos_machine::Machine;

/// Does what the lines ask for, one after another, and gathers what they write. All together take at most `budget` steps. A line that
/// asks for nothing does nothing. `SinkFault` comes only where the sink's count of faults rose; then a prefix is written. In either
/// case the machine is as it is after the steps that were taken: a breakpoint changes no word.
pub fn debug<K: Sink>(
    machine: &mut Machine,
    lines: &[u8],
    budget: u64,
    out: &mut K,
    pending: &mut Output,
) -> Result<(), SinkFault>
    requires { steps_of machine.old.state + budget ≤ most_steps }
    ensures text { GathersFor K.Sink out.old out.new pending.old pending.new
        (debugged budget (lines_of lines.now) machine.old.state None).bytes result }
    ensures state { IfOk result (λ _. machine.new.state
        ≡ (debugged budget (lines_of lines.now) machine.old.state None).after.state) }
    ensures steps { HasDebugged budget machine.old.state machine.new.state }
    ensures cause { FailsBySink K.Sink out.old out.new result }
{
    let first = machine.steps();
    let limits = Limits {
        first,
        last: first + budget,
    };
    let mut stops = Breakpoints::new();
    let mut rest = lines;
    while let Some((line, others)) = split_line(rest) {
        obey_line(line, limits, machine, &mut stops, out, pending)?;
        rest = others;
    }
    Ok(())
}

// Does what a line asks for; nothing, where it asks for nothing.
fn obey_line<K: Sink>(
    line: &[u8],
    limits: Limits,
    machine: &mut Machine,
    stops: &mut Breakpoints,
    out: &mut K,
    pending: &mut Output,
) -> Result<(), SinkFault>
    requires { IsWithin limits machine.old.state }
    ensures text { let d : Debugging = record { state = machine.old.state; stops = stops.old; past = None } in
        GathersFor K.Sink out.old out.new pending.old pending.new
        (line_obeyed limits (order_of 0 line.now) d).bytes result }
    ensures end { let d : Debugging = record { state = machine.old.state; stops = stops.old; past = None } in
        EndsTold limits d (line_obeyed limits (order_of 0 line.now) d)
        machine.new.state stops.new result }
    ensures cause { FailsBySink K.Sink out.old out.new result }
{
    match order_of(0, line) {
        Ok(order) => obey(order, limits, machine, stops, out, pending),
        Err(_) => Ok(()),
    }
}

/// Does what an order asks for, where no step can be undone, and gathers what it writes. The machine stays as it is where no steps are asked for.
/// `SinkFault` comes only where the sink's count of faults rose; then a prefix is written, and the machine is as it is after some of the steps.
pub fn obey<K: Sink>(
    order: Order,
    limits: Limits,
    machine: &mut Machine,
    stops: &mut Breakpoints,
    out: &mut K,
    pending: &mut Output,
) -> Result<(), SinkFault>
    requires { IsWithin limits machine.old.state }
    ensures text { let d : Debugging = record { state = machine.old.state; stops = stops.old; past = None } in
        GathersFor K.Sink out.old out.new pending.old pending.new
        (obeyed limits order d).bytes result }
    ensures end { let d : Debugging = record { state = machine.old.state; stops = stops.old; past = None } in
        EndsTold limits d (obeyed limits order d) machine.new.state stops.new result }
    ensures stays { takes_steps order ≡ false → machine.new ≡ machine.old }
    ensures cause { FailsBySink K.Sink out.old out.new result }
{
    match order {
        Order::Break(a) => set_breakpoint(a, stops, out, pending),
        Order::Unbreak(a) => {
            stops.remove(a);
            Ok(())
        }
        Order::Step(n) => step(machine, u64::from(n), limits, out, pending),
        Order::Back(n) => go_back(n, machine, limits, out, pending),
        Order::Continue => go_on(machine, stops, limits, out, pending),
        Order::Registers => gather_registers(machine, out, pending),
        Order::Words { from, count } => gather_words(machine.store(), from, count, out, pending),
        Order::Tasks => gather_tasks(machine, out, pending),
        Order::TaskQueue(id) => gather_task_queue(machine, id, out, pending),
        Order::DeviceQueue(number) => gather_device_queue(machine, number, out, pending),
        Order::Blocks => gather_blocks(machine, out, pending),
        Order::Instructions { from, count } => {
            gather_instructions(machine.store(), from, count, out, pending)
        }
    }
}

// Gathers that no step can be undone, where one was to be, and where the machine is.
fn go_back<K: Sink>(
    n: u32,
    machine: &Machine,
    limits: Limits,
    out: &mut K,
    pending: &mut Output,
) -> Result<(), SinkFault>
    requires { IsWithin limits machine.now.state }
    ensures text { GathersFor K.Sink out.old out.new pending.old pending.new
        (fewer_text n [] ++ place_text limits.first machine.now.state) result }
    ensures cause { FailsBySink K.Sink out.old out.new result }
{
    gather_return(n > 0, machine, limits.first, out, pending)
}

// Sets a breakpoint, or says that there is no room for one more.
fn set_breakpoint<K: Sink>(
    a: u32,
    stops: &mut Breakpoints,
    out: &mut K,
    pending: &mut Output,
) -> Result<(), SinkFault>
    ensures text { GathersFor K.Sink out.old out.new pending.old pending.new
        (full_text a stops.old) result }
    ensures stops { stops.new ≡ with_breakpoint a stops.old }
    ensures cause { FailsBySink K.Sink out.old out.new result }
{
    if stops.add(a) {
        return gather(out, pending, b"? full\n");
    }
    Ok(())
}
