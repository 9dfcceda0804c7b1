// Who runs, or why nobody does.
ghost use Rattle.std.specs.Prelude.{◌≡◌};
ghost use Rattle.std.specs.List.{list_all};
ghost use Rattle.byte_streams.specs.Pending.{Gathers};
ghost use Rattle.byte_streams.specs.Sinks.{FailsBySink, GathersFor};
ghost use Rattle.kernel_model.specs.KernelRecord.KernelRanges.{CanWalkLists};
ghost use Rattle.kernel_model.specs.KernelRecord.Recovered.{lists_in};
ghost use Rattle.state_text.specs.Runner.{can_answer, has_keys, has_member, idle_line, idle_words, is_dead, runner_text, running_line};

use crate::queues::is_empty_queue;
use byte_streams::Piece::{Decimal, Text};
use byte_streams::{Output, Sink, SinkFault, gather_pieces};
use kernel_lists::{RootField, TcbField, field, tasks};
use kernel_model::field_of_state;
use kernel_model::numbers::DEAD;
use tripos_machine::Machine;
use word_store::Store;

/// Gathers who runs, or why nobody does; nothing on a machine without a kernel, which has no tasks.
pub(crate) fn gather_runner<K: Sink>(
    machine: &Machine,
    out: &mut K,
    pending: &mut Output,
) -> Result<(), SinkFault>
    ensures text { GathersFor K.Sink out.old out.new pending.old pending.new
        (runner_text machine.now.state) result }
    ensures cause { FailsBySink K.Sink out.old out.new result }
{
    match machine.kernel_parts() {
        Some(parts) => match machine.running() {
            0 => gather_idle(&parts.store, has_keys(machine), out, pending),
            id => gather_running(id, machine.stop().is_some(), out, pending),
        },
        None => Ok(()),
    }
}

// That the task with the number runs, or ran last.
fn gather_running<K: Sink>(
    id: u32,
    stopped: bool,
    out: &mut K,
    pending: &mut Output,
) -> Result<(), SinkFault>
    ensures text { GathersFor K.Sink out.old out.new pending.old pending.new
        (running_line id stopped) result }
    ensures cause { FailsBySink K.Sink out.old out.new result }
{
    let words: &[u8] = if stopped { b" ran last\n" } else { b" runs\n" };
    gather_pieces(
        out,
        pending,
        &[Text(b"task "), Decimal(u64::from(id)), Text(words)],
    )
}

// That nobody runs, and why.
fn gather_idle<K: Sink>(
    store: &Store,
    keys: bool,
    out: &mut K,
    pending: &mut Output,
) -> Result<(), SinkFault>
    requires { CanWalkLists store.now }
    ensures text { GathersFor K.Sink out.old out.new pending.old pending.new
        (idle_line (lists_in store.now) keys) result }
    ensures cause { FailsBySink K.Sink out.old out.new result }
{
    gather_pieces(
        out,
        pending,
        &[
            Text(b"nobody runs: "),
            Text(idle_words(store, keys)),
            Text(b"\n"),
        ],
    )
}

#[tactic(auto, unfolding(crate::specs::Runner::idle_words))]
fn idle_words(store: &Store, keys: bool) -> &'static [u8]
    requires { CanWalkLists store.now }
    ensures { result.now ≡ idle_words (lists_in store.now) keys }
{
    if !has_tasks(store) {
        return b"there is no task";
    }
    if are_dead(store) {
        return b"all tasks are dead";
    }
    if !can_answer(store, keys) {
        return b"nothing can ever come";
    }
    b"all wait, are held or are dead"
}

fn has_tasks(store: &Store) -> bool
    requires { CanWalkLists store.now }
    ensures { result ≡ has_member (lists_in store.now).tasks }
{
    tasks(store).next().is_some()
}

// Whether all tasks are dead.
fn are_dead(store: &Store) -> bool
    requires { CanWalkLists store.now }
    ensures { result ≡ list_all is_dead (lists_in store.now).tasks }
{
    for t in tasks(store) {
        let state = field(store, t, TcbField::State);
        if field_of_state(state) != DEAD {
            return false;
        }
    }
    true
}

/// Whether a device can still send a packet back, where it is known whether keys will come.
pub(crate) fn can_answer(store: &Store, keys: bool) -> bool
    requires { CanWalkLists store.now }
    ensures { result ≡ can_answer (lists_in store.now) keys }
{
    if !is_empty_queue(store, RootField::ClockQueue.address()) {
        return true;
    }
    if !is_empty_queue(store, RootField::OutputQueue.address()) {
        return true;
    }
    if is_empty_queue(store, RootField::KeyQueue.address()) {
        return false;
    }
    keys
}

/// Whether a key is still to come, or one is typed ahead.
pub(crate) fn has_keys(machine: &Machine) -> bool
    ensures { result ≡ has_keys machine.now.state }
{
    match machine.kernel_parts() {
        Some(parts) => match parts.keys.first() {
            Some(_) => true,
            None => parts.tty.at(0).is_some(),
        },
        None => false,
    }
}
