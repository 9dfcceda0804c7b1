// Tasks that wait or are held, where no step of any task can end it.
ghost use Rattle.std.specs.Prelude.{◌≡◌};
ghost use Rattle.std.specs.List.{flat_map, list_any};
ghost use Rattle.byte_streams.specs.Pending.{Gathers};
ghost use Rattle.byte_streams.specs.Sinks.{FailsBySink, GathersFor};
ghost use Rattle.kernel_model.specs.KernelRecord.KernelRanges.{CanWalkLists, CanWalkTask};
ghost use Rattle.kernel_model.specs.KernelRecord.Recovered.{lists_in, task_in};
ghost use Rattle.state_text.specs.Deadlock.{deadlock_front, deadlock_line, deadlock_text, is_held_up, is_stuck, is_waiting, stuck_text, stuck_words, task_words, two_pass, unanswered_text};

use crate::queues::is_empty_queue;
use crate::runner::{can_answer, has_keys};
use crate::tasks::awaits_packet;
use byte_streams::Piece::{Decimal, Text};
use byte_streams::{Output, Sink, SinkFault, gather, gather_pieces};
use kernel_lists::{FIRST_GUEST, TcbField, field, tasks};
use kernel_model::numbers::{INTERRUPTED, RUNS};
use kernel_model::{field_of_state, is_held_state};
use tripos_machine::Machine;
use word_store::Store;

/// Gathers a line on the tasks that wait for ever or are held for ever, where no step of any task can end it; nothing on a machine
/// without a kernel, which has no tasks.
pub(crate) fn gather_deadlock<K: Sink>(
    machine: &Machine,
    out: &mut K,
    pending: &mut Output,
) -> Result<(), SinkFault>
    ensures text { GathersFor K.Sink out.old out.new pending.old pending.new
        (deadlock_text machine.now.state) result }
    ensures cause { FailsBySink K.Sink out.old out.new result }
{
    match machine.kernel_parts() {
        Some(parts) => {
            if machine.running() != 0 {
                return Ok(());
            }
            gather_unanswered(&parts.store, has_keys(machine), out, pending)
        }
        None => Ok(()),
    }
}

// The line, where nobody runs and no device can send a packet back.
fn gather_unanswered<K: Sink>(
    store: &Store,
    keys: bool,
    out: &mut K,
    pending: &mut Output,
) -> Result<(), SinkFault>
    requires { CanWalkLists store.now }
    ensures text { GathersFor K.Sink out.old out.new pending.old pending.new
        (unanswered_text (lists_in store.now) keys) result }
    ensures cause { FailsBySink K.Sink out.old out.new result }
{
    if can_answer(store, keys) {
        return Ok(());
    }
    gather_stuck(store, out, pending)
}

// The line, where a task is stuck.
fn gather_stuck<K: Sink>(store: &Store, out: &mut K, pending: &mut Output) -> Result<(), SinkFault>
    requires { CanWalkLists store.now }
    ensures text { GathersFor K.Sink out.old out.new pending.old pending.new
        (stuck_text (lists_in store.now).tasks) result }
    ensures cause { FailsBySink K.Sink out.old out.new result }
{
    if !is_any_stuck(store) {
        return Ok(());
    }
    gather_deadlock_line(store, out, pending)
}

// The tasks that are stuck, in the order of the chain.
fn gather_deadlock_line<K: Sink>(
    store: &Store,
    out: &mut K,
    pending: &mut Output,
) -> Result<(), SinkFault>
    requires { CanWalkLists store.now }
    ensures text { GathersFor K.Sink out.old out.new pending.old pending.new
        (deadlock_line (lists_in store.now).tasks) result }
    ensures cause { FailsBySink K.Sink out.old out.new result }
{
    gather(out, pending, deadlock_front(store))?;
    gather_chain(store, out, pending)?;
    gather(out, pending, b"\n")
}

// It is a deadlock where two tasks wait, or more.
fn deadlock_front(store: &Store) -> &'static [u8]
    requires { CanWalkLists store.now }
    ensures { result.now ≡ deadlock_front (lists_in store.now).tasks }
{
    if do_two_wait(store) {
        b"deadlock: no step of any task can end it"
    } else {
        b"for ever: no step of any task can end it"
    }
}

// What is said of each task.
fn gather_chain<K: Sink>(store: &Store, out: &mut K, pending: &mut Output) -> Result<(), SinkFault>
    requires { CanWalkLists store.now }
    ensures text { GathersFor K.Sink out.old out.new pending.old pending.new
        (flat_map stuck_words (lists_in store.now).tasks) result }
    ensures cause { FailsBySink K.Sink out.old out.new result }
{
    for t in tasks(store) {
        gather_stuck_words(store, t, out, pending)?;
    }
    Ok(())
}

// That the task at t waits, or is held; nothing where it is not stuck.
fn gather_stuck_words<K: Sink>(
    store: &Store,
    t: u32,
    out: &mut K,
    pending: &mut Output,
) -> Result<(), SinkFault>
    requires { CanWalkTask store.now t }
    ensures text { GathersFor K.Sink out.old out.new pending.old pending.new
        (stuck_words (task_in store.now t)) result }
    ensures cause { FailsBySink K.Sink out.old out.new result }
{
    let id = field(store, t, TcbField::Id);
    if is_waiting(store, t) {
        return gather_words(id, b" waits", out, pending);
    }
    if is_held_up(store, t) {
        return gather_words(id, b" is held", out, pending);
    }
    Ok(())
}

// What the task with the number does.
fn gather_words<K: Sink>(
    id: u32,
    text: &[u8],
    out: &mut K,
    pending: &mut Output,
) -> Result<(), SinkFault>
    ensures text { GathersFor K.Sink out.old out.new pending.old pending.new
        (task_words id text.now) result }
    ensures cause { FailsBySink K.Sink out.old out.new result }
{
    gather_pieces(
        out,
        pending,
        &[Text(b"; task "), Decimal(u64::from(id)), Text(text)],
    )
}

// Whether a task waits or is held.
fn is_any_stuck(store: &Store) -> bool
    requires { CanWalkLists store.now }
    ensures { result ≡ list_any is_stuck (lists_in store.now).tasks }
{
    for t in tasks(store) {
        if is_stuck(store, t) {
            return true;
        }
    }
    false
}

// Whether two tasks wait, or more.
fn do_two_wait(store: &Store) -> bool
    requires { CanWalkLists store.now }
    ensures { result ≡ two_pass is_waiting (lists_in store.now).tasks }
{
    let mut one_waits = false;
    for t in tasks(store) {
        if is_waiting(store, t) {
            if one_waits {
                return true;
            }
            one_waits = true;
        }
    }
    false
}

fn is_stuck(store: &Store, t: u32) -> bool
    requires { CanWalkTask store.now t }
    ensures { result ≡ is_stuck (task_in store.now t) }
{
    if is_waiting(store, t) {
        return true;
    }
    is_held_up(store, t)
}

// Whether the task at t is a guest that waits, and no packet has come.
fn is_waiting(store: &Store, t: u32) -> bool
    requires { CanWalkTask store.now t }
    ensures { result ≡ is_waiting (task_in store.now t) }
{
    if field(store, t, TcbField::Id) < FIRST_GUEST {
        return false;
    }
    awaits_packet(store, t)
}

// Whether the task at t would go on, were it not held.
fn is_held_up(store: &Store, t: u32) -> bool
    requires { CanWalkTask store.now t }
    ensures { result ≡ is_held_up (task_in store.now t) }
{
    let state = field(store, t, TcbField::State);
    if !is_held_state(state) {
        return false;
    }
    match field_of_state(state) {
        RUNS | INTERRUPTED => true,
        _ => !is_empty_queue(store, store.address_of(t, TcbField::Queue.index())),
    }
}
