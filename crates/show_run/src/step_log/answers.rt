// What a call answers.
ghost use Rattle.std.specs.Option.{option_map};
ghost use Rattle.std.specs.Prelude.{◌≡◌};
ghost use Rattle.byte_streams.specs.Pending.{Gathers};
ghost use Rattle.byte_streams.specs.Sinks.{FailsBySink, GathersFor};
ghost use Rattle.kernel_model.specs.KernelRecord.HoldsLists.{HoldsLists};
ghost use Rattle.kernel_model.specs.KernelRecord.Lists.{Lists};
ghost use Rattle.kernel_lists.specs.TaskBlock.TaskChain.{HasTasks, task_with, tasks_in};
ghost use Rattle.show_run.specs.StepLog.Answers.{answer_at, answer_elsewhere, answer_lines, answer_of, answer_of_task, call_answer_lines, given_lines, made_lines, refused_lines, values_text};
ghost use Rattle.show_run.specs.StepLog.Moments.{line};
ghost use Rattle.show_run.specs.StepLog.Calls.{call_seen};

use crate::step_log::calls::Call;
use crate::step_log::moments::{Moment, gather_line};
use crate::step_log::refusals::gather_refusal;
use byte_streams::Piece::{Signed, Text};
use byte_streams::{Output, Sink, SinkFault};
use kernel_lists::{TcbField, field, find};
use kernel_model::field_of_state;
use kernel_model::numbers::WAITS;
use tripos_machine::Machine;
use word_store::{Store, signed};

/// What a task has of its call after the step.
#[derive(Clone, Copy)]
pub enum CallAnswer {
    /// Nothing yet: it waits.
    Waits,
    /// Its registers A and B.
    Results {
        /// A.
        first: u32,
        /// B.
        second: u32,
    },
}

/// Gathers what the call of the step answers, if one was made.
pub(crate) fn gather_answer<K: Sink>(
    m: Moment,
    call: Option<Call>,
    machine: &Machine,
    out: &mut K,
    pending: &mut Output,
) -> Result<(), SinkFault>
    ensures text { GathersFor K.Sink out.old out.new pending.old pending.new
        (answer_lines m (option_map call_seen call) machine.now.state) result }
    ensures cause { FailsBySink K.Sink out.old out.new result }
{
    match call {
        Some(call) => {
            let answer = answer(machine, m.task);
            gather_made(m, call.refuses, answer, out, pending)
        }
        None => Ok(()),
    }
}

fn gather_made<K: Sink>(
    m: Moment,
    refuses: bool,
    answer: Option<CallAnswer>,
    out: &mut K,
    pending: &mut Output,
) -> Result<(), SinkFault>
    ensures text { GathersFor K.Sink out.old out.new pending.old pending.new
        (made_lines m refuses answer) result }
    ensures cause { FailsBySink K.Sink out.old out.new result }
{
    match answer {
        Some(answer) => gather_call_answer(m, refuses, answer, out, pending),
        None => Ok(()),
    }
}

// What the task with the number has of its call; none where the machine has stopped, or there is no such task any more.
fn answer(machine: &Machine, id: u32) -> Option<CallAnswer>
    ensures { result ≡ answer_of id machine.now.state }
{
    if machine.stop().is_some() {
        return None;
    }
    if machine.running() == id {
        let regs = machine.regs();
        return Some(CallAnswer::Results {
            first: regs.a,
            second: regs.b,
        });
    }
    answer_elsewhere(machine, id)
}

// What a task that does not run has of it.
fn answer_elsewhere(machine: &Machine, id: u32) -> Option<CallAnswer>
    ensures { result ≡ answer_elsewhere id machine.now.state }
{
    match machine.kernel_parts() {
        Some(parts) => answer_in_chain(&parts.store, id),
        None => None,
    }
}

fn answer_in_chain(store: &Store, id: u32) -> Option<CallAnswer>
    requires { (l : Lists) × HoldsLists store.now l }
    ensures { (l : Lists) → HoldsLists store.now l → result ≡ answer_of_task id l.tasks }
{
    answer_of_block(store, id)
}

// What the words of its task block say.
fn answer_of_block(store: &Store, id: u32) -> Option<CallAnswer>
    requires { HasTasks store.now }
    ensures { result
        ≡ option_map (answer_at store.now) (task_with store.now id (tasks_in store.now)) }
{
    match find(store, id) {
        Some(t) => Some(answer_at(store, t)),
        None => None,
    }
}

fn answer_at(store: &Store, t: u32) -> CallAnswer
    ensures { result ≡ answer_at store.now t }
{
    let state = field(store, t, TcbField::State);
    if field_of_state(state) == WAITS {
        return CallAnswer::Waits;
    }
    CallAnswer::Results {
        first: field(store, t, TcbField::SavedA),
        second: field(store, t, TcbField::SavedB),
    }
}

fn gather_call_answer<K: Sink>(
    m: Moment,
    refuses: bool,
    answer: CallAnswer,
    out: &mut K,
    pending: &mut Output,
) -> Result<(), SinkFault>
    ensures text { GathersFor K.Sink out.old out.new pending.old pending.new
        (call_answer_lines m refuses answer) result }
    ensures cause { FailsBySink K.Sink out.old out.new result }
{
    match answer {
        CallAnswer::Waits => gather_line(m, &[Text(b"answer waits")], out, pending),
        CallAnswer::Results { first, second } => {
            gather_results(m, refuses, first, second, out, pending)
        }
    }
}

fn gather_results<K: Sink>(
    m: Moment,
    refuses: bool,
    first: u32,
    second: u32,
    out: &mut K,
    pending: &mut Output,
) -> Result<(), SinkFault>
    ensures text { GathersFor K.Sink out.old out.new pending.old pending.new
        (given_lines m refuses first second) result }
    ensures cause { FailsBySink K.Sink out.old out.new result }
{
    gather_values(m, first, second, out, pending)?;
    gather_refused(m, refuses, first, second, out, pending)
}

fn gather_values<K: Sink>(
    m: Moment,
    first: u32,
    second: u32,
    out: &mut K,
    pending: &mut Output,
) -> Result<(), SinkFault>
    ensures text { GathersFor K.Sink out.old out.new pending.old pending.new
        (line m (values_text first second)) result }
    ensures cause { FailsBySink K.Sink out.old out.new result }
{
    gather_line(
        m,
        &[
            Text(b"answer = "),
            Signed(i64::from(signed(first))),
            Text(b", second "),
            Signed(i64::from(signed(second))),
        ],
        out,
        pending,
    )
}

// Why the call was refused, if it was.
fn gather_refused<K: Sink>(
    m: Moment,
    refuses: bool,
    first: u32,
    second: u32,
    out: &mut K,
    pending: &mut Output,
) -> Result<(), SinkFault>
    ensures text { GathersFor K.Sink out.old out.new pending.old pending.new
        (refused_lines m refuses first second) result }
    ensures cause { FailsBySink K.Sink out.old out.new result }
{
    if !refuses {
        return Ok(());
    }
    if first != 0 {
        return Ok(());
    }
    gather_refusal(m, second, out, pending)
}
