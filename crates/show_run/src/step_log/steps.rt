// The lines of steps.
ghost use Rattle.std.specs.Prelude.{◌≡◌, ◌+◌, ◌≤◌, ◌<◌, IfOk, None, length};
ghost use Rattle.byte_streams.specs.Sinks.{FailsBySink, GathersFor};
ghost use Rattle.kernel_model.specs.KernelRecord.Ranges.{most_steps};
ghost use Rattle.tripos_machine.specs.State.{steps_of, stop_of, words_of};
ghost use Rattle.tripos_machine.specs.Step.{run, step};
ghost use Rattle.show_run.specs.StepLog.StepLines.{before_seen, change_lines, end_lines, lines_after, lines_before, log_text, step_lines};

use crate::step_log::answers::gather_answer;
use crate::step_log::before::{Before, known_before};
use crate::step_log::calls::gather_call;
use crate::step_log::changes::{gather_key, gather_stop, gather_tick};
use crate::step_log::console::gather_console;
use crate::step_log::faults::gather_fault;
use crate::step_log::guests::{gather_guest, moment};
use crate::step_log::moments::Moment;
use crate::step_log::turns::gather_turn;
use crate::step_log::writes::gather_instruction_writes;
use byte_streams::{Output, Sink, SinkFault};
use tripos_machine::Machine;
use word_store::Store;

/// Takes at most n steps, up to one that stops the machine, and gathers what happens in them, a line each: in the order of a step its
/// instruction, what that writes, its call, its events, the packets that were accepted, the other words that change, what the call answers,
/// a fault of the task, what is written to the console, the tick, the key that came, and the stop. Each line begins with the number of the
/// step, and the tick, the task and PC before it. The words of the other store, of as many words, are of no use before and after.
/// `SinkFault` comes only where the sink's count of faults rose; then a prefix of what was pending, and of the lines after it, has gone to
/// the sink.
pub fn gather_steps<K: Sink>(
    machine: &mut Machine,
    n: u64,
    former: &mut Store,
    out: &mut K,
    pending: &mut Output,
) -> Result<(), SinkFault>
    requires steps { steps_of machine.old.state + n ≤ most_steps }
    requires size { length former.old ≡ length (words_of machine.old.state) }
    ensures text { GathersFor K.Sink out.old out.new pending.old pending.new
        (log_text n machine.old.state) result }
    ensures state { IfOk result (λ _. machine.new.state ≡ (run n machine.old.state).state) }
    ensures cause { FailsBySink K.Sink out.old out.new result }
{
    for _ in 0..n {
        if machine.stop().is_some() {
            return Ok(());
        }
        gather_step(machine, former, out, pending)?;
    }
    Ok(())
}

// Takes a step, and gathers its lines.
fn gather_step<K: Sink>(
    machine: &mut Machine,
    former: &mut Store,
    out: &mut K,
    pending: &mut Output,
) -> Result<(), SinkFault>
    requires goes { stop_of machine.old.state ≡ None }
    requires steps { steps_of machine.old.state < most_steps }
    requires size { length former.old ≡ length (words_of machine.old.state) }
    ensures text { GathersFor K.Sink out.old out.new pending.old pending.new
        (step_lines machine.old.state (step machine.old.state)) result }
    ensures state { IfOk result (λ _. machine.new.state ≡ (step machine.old.state).state) }
    ensures size { IfOk result (λ _. length former.new ≡ length (words_of machine.new.state)) }
    ensures cause { FailsBySink K.Sink out.old out.new result }
{
    machine.know_sound();
    let m = moment(machine);
    let before = known_before(machine);
    gather_before(m, before, machine, out, pending)?;
    gather_turn(m, before, former, machine, out, pending)?;
    gather_after(m, before, machine, out, pending)
}

// What is known before the step: its instruction, what that writes, and its call.
fn gather_before<K: Sink>(
    m: Moment,
    before: Before,
    machine: &Machine,
    out: &mut K,
    pending: &mut Output,
) -> Result<(), SinkFault>
    ensures text { GathersFor K.Sink out.old out.new pending.old pending.new
        (lines_before m (before_seen before) machine.now.state) result }
    ensures cause { FailsBySink K.Sink out.old out.new result }
{
    gather_guest(m, machine, out, pending)?;
    gather_instruction_writes(m, machine, out, pending)?;
    gather_call(m, before.call, out, pending)
}

// What is known after the step: how it ended for the task, and what else has changed.
fn gather_after<K: Sink>(
    m: Moment,
    before: Before,
    machine: &Machine,
    out: &mut K,
    pending: &mut Output,
) -> Result<(), SinkFault>
    ensures text { GathersFor K.Sink out.old out.new pending.old pending.new
        (lines_after m (before_seen before) machine.now.output machine.now.state) result }
    ensures cause { FailsBySink K.Sink out.old out.new result }
{
    gather_end(m, before, machine, out, pending)?;
    gather_console(m, machine.output(), out, pending)?;
    gather_changes(m, before, machine, out, pending)
}

// What the call answers, and the fault that was recorded.
fn gather_end<K: Sink>(
    m: Moment,
    before: Before,
    machine: &Machine,
    out: &mut K,
    pending: &mut Output,
) -> Result<(), SinkFault>
    ensures text { GathersFor K.Sink out.old out.new pending.old pending.new
        (end_lines m (before_seen before) machine.now.state) result }
    ensures cause { FailsBySink K.Sink out.old out.new result }
{
    gather_answer(m, before.call, machine, out, pending)?;
    gather_fault(m, before.fault, machine, out, pending)
}

// The tick, the key that came, and the stop.
fn gather_changes<K: Sink>(
    m: Moment,
    before: Before,
    machine: &Machine,
    out: &mut K,
    pending: &mut Output,
) -> Result<(), SinkFault>
    ensures text { GathersFor K.Sink out.old out.new pending.old pending.new
        (change_lines m (before_seen before) machine.now.state) result }
    ensures cause { FailsBySink K.Sink out.old out.new result }
{
    gather_tick(m, machine, out, pending)?;
    gather_key(m, before.keys, machine, out, pending)?;
    gather_stop(m, machine, out, pending)
}
