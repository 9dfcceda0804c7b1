// Whether faults are reported as they must be, between steps.
ghost use Rattle.std.specs.Prelude.{◌≡◌, ◌↔◌, IsTrue, not, true};
ghost use Rattle.std.specs.List.{AllByRecursion, list_any};
ghost use Rattle.kernel_lists.specs.LinkedList.Walk.{CanWalk};
ghost use Rattle.kernel_lists.specs.PacketQueue.Queue.{HasQueue};
ghost use Rattle.kernel_lists.specs.TaskBlock.RootWords.{first_task};
ghost use Rattle.kernel_lists.specs.TaskBlock.TaskChain.{task_link};
ghost use Rattle.kernel_model.specs.KernelRecord.Between.{AreValidFaults, Tells, has_unreported, is_unreported};
ghost use Rattle.kernel_model.specs.KernelRecord.Changes.{work_of};
ghost use Rattle.kernel_model.specs.KernelRecord.HoldsLists.{HoldsLists};
ghost use Rattle.kernel_model.specs.KernelRecord.Lists.{has_task};
ghost use Rattle.kernel_model.specs.KernelRecord.Recovered.{lists_in, packet_in, packets_at, task_in};
ghost use Rattle.kernel_check.specs.Private.Reports.{is_unreported_as};

use kernel_lists::{FIRST_GUEST, NO_QUEUE, TcbField, field, packets, tasks};
use kernel_model::numbers::{FAULT_PACKET, FAULT_WORD, REPORTED, REPORTER, SENDER};
use store_claims::has_task;
use word_store::{Store, word, word_at};

/// Whether the fault packet, where there is one, is on a queue exactly where some fault was not reported yet, and is from a guest
/// with such a fault. It looks twice at each task, and once at each packet of the task that reports faults.
pub fn are_valid_faults(store: &Store) -> bool
    requires { HoldsLists store.now (lists_in store.now) }
    ensures { IsTrue result ↔ AreValidFaults (lists_in store.now) }
{
    if !packet_waits(store) {
        return false;
    }
    sender_tells(store)
}

// Whether the packet is free exactly where each fault was reported.
fn packet_waits(store: &Store) -> bool
    requires { HoldsLists store.now (lists_in store.now) }
    ensures { IsTrue result ↔ (has_task 2 (lists_in store.now).tasks ≡ true
        → (lists_in store.now).fault_packet_free
        ≡ not (list_any is_unreported (lists_in store.now).tasks)) }
{
    if !has_task(store, REPORTER) {
        return true;
    }
    let waits = are_unreported(store);
    if word(store, FAULT_PACKET) == NO_QUEUE {
        return !waits;
    }
    waits
}

// Whether some fault was not reported yet.
fn are_unreported(store: &Store) -> bool
    requires { CanWalk store.now task_link first_task }
    ensures { result ≡ list_any is_unreported (lists_in store.now).tasks }
{
    for t in tasks(store) {
        if is_unreported(store, t) {
            return true;
        }
    }
    false
}

// Whether the task at t has a fault that was not reported yet.
fn is_unreported(store: &Store, t: u32) -> bool
    ensures { result ≡ is_unreported (task_in store.now t) }
{
    field(store, t, FAULT_WORD) >= 1 && field(store, t, FAULT_WORD) < REPORTED
}

// Whether the fault packet, where the task that reports faults has it, is from a guest with such a fault.
fn sender_tells(store: &Store) -> bool
    requires { HoldsLists store.now (lists_in store.now) }
    ensures { IsTrue result ↔
        AllByRecursion (Tells (lists_in store.now).tasks) (work_of 2 (lists_in store.now).tasks) }
{
    for t in tasks(store) {
        if field(store, t, TcbField::Id) == REPORTER {
            return packets_tell(store, store.address_of(t, TcbField::Queue.index()));
        }
    }
    true
}

// The same of the packets of a queue.
fn packets_tell(store: &Store, head: u32) -> bool
    requires walk { CanWalk store.now task_link first_task }
    requires queue { HasQueue store.now head }
    ensures { IsTrue result ↔
        AllByRecursion (Tells (lists_in store.now).tasks) (packets_at store.now head) }
{
    for p in packets(store, head) {
        if !packet_tells(store, p) {
            return false;
        }
    }
    true
}

// The same of one packet.
fn packet_tells(store: &Store, p: u32) -> bool
    requires { CanWalk store.now task_link first_task }
    ensures { IsTrue result ↔ Tells (lists_in store.now).tasks (packet_in store.now p) }
{
    if p != FAULT_PACKET {
        return true;
    }
    has_unreported(store, word_at(store, p, SENDER))
}

// Whether a guest with the number has a fault that was not reported yet.
fn has_unreported(store: &Store, id: u32) -> bool
    requires { CanWalk store.now task_link first_task }
    ensures { result ≡ has_unreported id (lists_in store.now).tasks }
{
    for t in tasks(store) {
        if is_unreported_guest(store, t, id) {
            return true;
        }
    }
    false
}

// Whether the task at t is that guest, and has such a fault.
fn is_unreported_guest(store: &Store, t: u32, id: u32) -> bool
    ensures { result ≡ is_unreported_as id (task_in store.now t) }
{
    if field(store, t, TcbField::Id) != id {
        return false;
    }
    id >= FIRST_GUEST && is_unreported(store, t)
}
