// The state of a machine in words.
ghost use Rattle.std.specs.Prelude.{◌≡◌};
ghost use Rattle.byte_streams.specs.Pending.{Gathers};
ghost use Rattle.byte_streams.specs.Sinks.{FailsBySink, GathersFor};
ghost use Rattle.debugger.specs.Texts.{blocks_text};
ghost use Rattle.kernel_model.specs.KernelRecord.KernelRanges.{CanWalkLists};
ghost use Rattle.kernel_model.specs.KernelRecord.Recovered.{lists_in};
ghost use Rattle.state_text.specs.ProgramNames.{name_in};
ghost use Rattle.state_text.specs.StateText.{bare_counts, count_words, instruction_line, is_end, is_past, kernel_counts, kernel_text, lists_text, next_line, state_text, stop_line, stopped_line};

use crate::Program;
use crate::deadlock::gather_deadlock;
use crate::modules::gather_modules;
use crate::queues::gather_queues;
use crate::runner::gather_runner;
use crate::tasks::gather_tasks;
use byte_streams::Piece::{Decimal, Text};
use byte_streams::{Output, Sink, SinkFault, gather, gather_pieces};
use debugger::{gather_blocks, gather_instructions, gather_registers, is_guest_next};
use kernel_lists::{RootField, root};
use kernel_model::Stop;
use tripos_machine::Machine;
use word_store::Store;

/// Gathers the state of a machine, a line for each fact. The first line says after how many steps it is, at which tick, and whether the
/// machine has stopped; then come who runs, or why nobody does, the tasks that wait or are held for ever, the registers, and the instruction at PC, which is a byte address.
/// Behind these a machine with a kernel has its tasks with their packets, each queue, the blocks and the modules; their addresses are
/// word addresses, and sizes are in words. A module, and a task, has the name of the first of the programs whose words are there. A
/// machine without a kernel has no tick, and none of these lists.
#[tactic(auto, unfolding(crate::specs::StateText::state_text))]
pub fn gather_state<K: Sink>(
    machine: &Machine,
    programs: &[Program],
    out: &mut K,
    pending: &mut Output,
) -> Result<(), SinkFault>
    ensures text { GathersFor K.Sink out.old out.new pending.old pending.new
        (state_text programs.now machine.now.state) result }
    ensures cause { FailsBySink K.Sink out.old out.new result }
{
    gather_counts(machine, out, pending)?;
    gather_stop(machine.stop(), out, pending)?;
    gather_runner(machine, out, pending)?;
    gather_deadlock(machine, out, pending)?;
    gather_registers(machine, out, pending)?;
    gather_next(machine, out, pending)?;
    gather_lists(machine, programs, out, pending)
}

// The steps taken so far, and the ticks of a machine with a kernel.
fn gather_counts<K: Sink>(
    machine: &Machine,
    out: &mut K,
    pending: &mut Output,
) -> Result<(), SinkFault>
    ensures text { GathersFor K.Sink out.old out.new pending.old pending.new
        (count_words machine.now.state) result }
    ensures cause { FailsBySink K.Sink out.old out.new result }
{
    let steps = machine.steps();
    match machine.kernel_parts() {
        Some(parts) => {
            let tick = root(&parts.store, RootField::Tick);
            gather_kernel_counts(steps, tick, out, pending)
        }
        None => gather_bare_counts(steps, out, pending),
    }
}

// The steps and the ticks so far.
fn gather_kernel_counts<K: Sink>(
    steps: u64,
    tick: u32,
    out: &mut K,
    pending: &mut Output,
) -> Result<(), SinkFault>
    ensures text { GathersFor K.Sink out.old out.new pending.old pending.new
        (kernel_counts steps tick) result }
    ensures cause { FailsBySink K.Sink out.old out.new result }
{
    gather_pieces(
        out,
        pending,
        &[
            Text(b"after "),
            Decimal(steps),
            Text(b" steps, at tick "),
            Decimal(u64::from(tick)),
            Text(b": "),
        ],
    )
}

// The steps taken so far.
fn gather_bare_counts<K: Sink>(
    steps: u64,
    out: &mut K,
    pending: &mut Output,
) -> Result<(), SinkFault>
    ensures text { GathersFor K.Sink out.old out.new pending.old pending.new
        (bare_counts steps) result }
    ensures cause { FailsBySink K.Sink out.old out.new result }
{
    gather_pieces(
        out,
        pending,
        &[Text(b"after "), Decimal(steps), Text(b" steps: ")],
    )
}

// Whether a machine has stopped, and why.
fn gather_stop<K: Sink>(
    stop: Option<Stop>,
    out: &mut K,
    pending: &mut Output,
) -> Result<(), SinkFault>
    ensures text { GathersFor K.Sink out.old out.new pending.old pending.new
        (stop_line stop) result }
    ensures cause { FailsBySink K.Sink out.old out.new result }
{
    match stop {
        Some(stop) => gather_stopped(stop, out, pending),
        None => gather(out, pending, b"it can go on\n"),
    }
}

// Why a machine has stopped.
fn gather_stopped<K: Sink>(stop: Stop, out: &mut K, pending: &mut Output) -> Result<(), SinkFault>
    ensures text { GathersFor K.Sink out.old out.new pending.old pending.new
        (stopped_line stop) result }
    ensures cause { FailsBySink K.Sink out.old out.new result }
{
    match stop {
        Stop::Steps => gather(out, pending, b"the steps are used up\n"),
        Stop::Finish => gather(out, pending, b"the shell has finished\n"),
        Stop::Quit(code) => gather_pieces(
            out,
            pending,
            &[Text(b"quit "), Decimal(u64::from(code)), Text(b"\n")],
        ),
        Stop::Fault {
            code,
            address,
            task,
        } => gather_pieces(
            out,
            pending,
            &[
                Text(b"fault "),
                Decimal(u64::from(code)),
                Text(b" at "),
                Decimal(u64::from(address)),
                Text(b" in task "),
                Decimal(u64::from(task)),
                Text(b"\n"),
            ],
        ),
    }
}

// The instruction that a guest is to execute next, or at which it met a fault.
fn gather_next<K: Sink>(
    machine: &Machine,
    out: &mut K,
    pending: &mut Output,
) -> Result<(), SinkFault>
    ensures text { GathersFor K.Sink out.old out.new pending.old pending.new
        (next_line machine.now.state) result }
    ensures cause { FailsBySink K.Sink out.old out.new result }
{
    if is_past(machine.stop()) {
        return Ok(());
    }
    gather_instruction(machine, out, pending)
}

// Whether a machine has stopped with PC behind what stopped it.
fn is_past(stop: Option<Stop>) -> bool
    ensures { result ≡ is_past stop }
{
    match stop {
        Some(stop) => is_end(stop),
        None => false,
    }
}

fn is_end(stop: Stop) -> bool
    ensures { result ≡ is_end stop }
{
    match stop {
        Stop::Steps | Stop::Fault { .. } => false,
        Stop::Quit(_) | Stop::Finish => true,
    }
}

// The instruction at PC, if a guest is next.
fn gather_instruction<K: Sink>(
    machine: &Machine,
    out: &mut K,
    pending: &mut Output,
) -> Result<(), SinkFault>
    ensures text { GathersFor K.Sink out.old out.new pending.old pending.new
        (instruction_line machine.now.state) result }
    ensures cause { FailsBySink K.Sink out.old out.new result }
{
    if !is_guest_next(machine) {
        return Ok(());
    }
    match machine.regs().pc {
        0 => Ok(()),
        pc => gather_instructions(machine.store(), pc, 1, out, pending),
    }
}

// The lists of a kernel; none on a machine without one.
fn gather_lists<K: Sink>(
    machine: &Machine,
    programs: &[Program],
    out: &mut K,
    pending: &mut Output,
) -> Result<(), SinkFault>
    ensures text { GathersFor K.Sink out.old out.new pending.old pending.new
        (lists_text programs.now machine.now.state) result }
    ensures cause { FailsBySink K.Sink out.old out.new result }
{
    match machine.kernel_parts() {
        Some(parts) => gather_kernel(machine, programs, &parts.store, out, pending),
        None => Ok(()),
    }
}

// The lists of the kernel that is in the store, which is that of the machine.
#[tactic(auto, unfolding(crate::specs::StateText::kernel_text))]
fn gather_kernel<K: Sink>(
    machine: &Machine,
    programs: &[Program],
    store: &Store,
    out: &mut K,
    pending: &mut Output,
) -> Result<(), SinkFault>
    requires { CanWalkLists store.now }
    ensures text { GathersFor K.Sink out.old out.new pending.old pending.new
        (kernel_text (name_in programs.now store.now) (lists_in store.now)
        (blocks_text machine.now.state)) result }
    ensures cause { FailsBySink K.Sink out.old out.new result }
{
    gather_tasks(store, programs, out, pending)?;
    gather_queues(store, out, pending)?;
    gather(out, pending, b"blocks\n")?;
    gather_blocks(machine, out, pending)?;
    gather_modules(store, programs, out, pending)
}
