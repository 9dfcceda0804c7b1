// Whether a task has sent a packet that is queued.
ghost use Rattle.std.specs.Prelude.{◌≡◌};
ghost use Rattle.std.specs.List.{list_any};
ghost use Rattle.kernel_model.specs.KernelRecord.KernelRanges.{CanWalkLists, CanWalkTask};
ghost use Rattle.kernel_model.specs.KernelRecord.Lists.{queued};
ghost use Rattle.kernel_model.specs.KernelRecord.Recovered.{lists_in, packets_at, pending_in, task_in};
ghost use Rattle.kernel_lists.specs.PacketQueue.Queue.{HasQueue};
ghost use Rattle.state_text.specs.AwaitedPackets.{is_from};

use kernel_lists::{RootField, TcbField, packets, root, tasks};
use kernel_model::numbers::{PENDING_HEAD, SENDER};
use word_store::{Store, word_at};

/// Whether a packet that the task with the number has sent is on any queue.
pub(crate) fn has_packet(store: &Store, id: u32) -> bool
    requires { CanWalkLists store.now }
    ensures { result ≡ list_any (is_from id) (queued (lists_in store.now)) }
{
    if is_at_tasks(store, id) {
        return true;
    }
    if is_on_queue(store, RootField::ClockQueue.address(), id) {
        return true;
    }
    if is_on_queue(store, RootField::KeyQueue.address(), id) {
        return true;
    }
    if is_on_queue(store, RootField::OutputQueue.address(), id) {
        return true;
    }
    is_at_console(store, id)
}

// Whether one is on the queue of a task.
fn is_at_tasks(store: &Store, id: u32) -> bool
    requires { CanWalkLists store.now }
    ensures { result ≡ list_any (λ t. list_any (is_from id) t.queue) (lists_in store.now).tasks }
{
    for t in tasks(store) {
        if is_at_task(store, t, id) {
            return true;
        }
    }
    false
}

// Whether one is on the queue of the task at t.
fn is_at_task(store: &Store, t: u32, id: u32) -> bool
    requires { CanWalkTask store.now t }
    ensures { result ≡ list_any (is_from id) (task_in store.now t).queue }
{
    is_on_queue(store, store.address_of(t, TcbField::Queue.index()), id)
}

// Whether one is among the reads that the console has taken; there is a console where there are residents.
fn is_at_console(store: &Store, id: u32) -> bool
    requires { CanWalkLists store.now }
    ensures { result ≡ list_any (is_from id) (pending_in store.now) }
{
    if root(store, RootField::Residents) == 0 {
        return false;
    }
    is_on_queue(store, PENDING_HEAD, id)
}

// Whether one is on the queue at the head.
fn is_on_queue(store: &Store, head: u32, id: u32) -> bool
    requires { HasQueue store.now head }
    ensures { result ≡ list_any (is_from id) (packets_at store.now head) }
{
    for p in packets(store, head) {
        if word_at(store, p, SENDER) == id {
            return true;
        }
    }
    false
}
