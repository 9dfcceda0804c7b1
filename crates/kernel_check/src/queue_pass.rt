// The queued packets.
ghost use Rattle.std.specs.Prelude.{◌≡◌, ◌↔◌, ◌+◌, ◌≤◌, ◌&&◌, IsTrue, is_some, length, not, slice_index};
ghost use Rattle.std.specs.List.{AllByRecursion};
ghost use Rattle.kernel_lists.specs.PacketQueue.Queue.{HasQueue};
ghost use Rattle.kernel_lists.specs.TaskBlock.RootWords.{root_address};
ghost use Rattle.kernel_lists.specs.declared.task_block.roots.RootField.TheVariants.{Running};
ghost use Rattle.kernel_model.specs.KernelRecord.Lists.{address_of_task, has_task, is_queued};
ghost use Rattle.kernel_model.specs.KernelRecord.Recovered.{lists_in, packet_in, packets_at, task_in};
ghost use Rattle.kernel_model.specs.KernelRecord.Residents.{fault_packet, key_packet};
ghost use Rattle.kernel_model.specs.KernelRecord.Task.{queue_head};
ghost use Rattle.kernel_model.specs.KernelRecord.ValidQueues.{AreValidQueues, IsValidPacket, NeverFall, Place};
ghost use Rattle.kernel_model.specs.KernelRecord.ValidQueues.Place.{Clock, Keyboard, Output, Pending, Work};
ghost use Rattle.kernel_check.specs.KnownTasks.{AreTasksKnown};
ghost use Rattle.kernel_check.specs.Private.ClaimedQueue.{IsClaimedQueue};
ghost use Rattle.kernel_check.specs.Private.Places.{place_of};

use crate::list_passes::has_residents;
use crate::packet_rules::{is_task, is_valid_packet};
use crate::places::QueuePlace;
use crate::queued::is_queued;
use kernel_lists::{NO_QUEUE, RootField, TcbField, field, packets, tasks};
use kernel_model::numbers::{FAULT_PACKET, KEY_PACKET, PENDING_HEAD, REPORTER, RES2};
use word_store::{Store, word, word_at};

/// Whether each queued packet may be where it is, due ticks never fall along the clock's queue, and the packets of residents
/// are free exactly where they are on no queue. It looks three times at each packet.
pub fn are_valid_queues(store: &Store) -> bool
    requires known { AreTasksKnown store.now }
    requires running { slice_index store.now (root_address Running)
        ≡ address_of_task (lists_in store.now) (lists_in store.now).running }
    ensures { IsTrue result ↔ AreValidQueues (lists_in store.now) }
{
    if !are_valid_work_queues(store) {
        return false;
    }
    if !are_valid_device_queues(store) {
        return false;
    }
    if !is_valid_pending(store) {
        return false;
    }
    if !ticks_rise(store, RootField::ClockQueue.address()) {
        return false;
    }
    if !key_packet_is_told(store) {
        return false;
    }
    fault_packet_is_told(store)
}

// The packets of all tasks.
fn are_valid_work_queues(store: &Store) -> bool
    requires { AreTasksKnown store.now }
    ensures { IsTrue result ↔ AllByRecursion
        (λ t. AllByRecursion (IsValidPacket (lists_in store.now) (Work t.id)) t.queue)
        (lists_in store.now).tasks }
{
    for t in tasks(store) {
        if !is_valid_task_queue(store, t) {
            return false;
        }
    }
    true
}

// Those of the task at t.
fn is_valid_task_queue(store: &Store, t: u32) -> bool
    requires known { AreTasksKnown store.now }
    requires queue { IsClaimedQueue store.now (queue_head t) }
    requires block { t + 23 ≤ length store.now }
    ensures { IsTrue result ↔ AllByRecursion
        (IsValidPacket (lists_in store.now) (Work (task_in store.now t).id)) (task_in store.now t).queue }
{
    let place = QueuePlace::OfTask(field(store, t, TcbField::Id));
    are_valid_packets(store, place, store.address_of(t, TcbField::Queue.index()))
}

// Those of the devices.
fn are_valid_device_queues(store: &Store) -> bool
    requires { AreTasksKnown store.now }
    ensures { IsTrue result ↔
        (AllByRecursion (IsValidPacket (lists_in store.now) Clock) (lists_in store.now).clock
        × AllByRecursion (IsValidPacket (lists_in store.now) Keyboard) (lists_in store.now).keyboard
        × AllByRecursion (IsValidPacket (lists_in store.now) Output) (lists_in store.now).output) }
{
    if !are_valid_packets(store, QueuePlace::OfClock, RootField::ClockQueue.address()) {
        return false;
    }
    if !are_valid_packets(store, QueuePlace::OfKeyboard, RootField::KeyQueue.address()) {
        return false;
    }
    are_valid_packets(
        store,
        QueuePlace::OfOutput,
        RootField::OutputQueue.address(),
    )
}

// The reads that wait for a line.
fn is_valid_pending(store: &Store) -> bool
    requires { AreTasksKnown store.now }
    ensures { IsTrue result ↔
        AllByRecursion (IsValidPacket (lists_in store.now) Pending) (lists_in store.now).pending }
{
    if !has_residents(store) {
        return true;
    }
    are_valid_packets(store, QueuePlace::OfConsole, PENDING_HEAD)
}

// The packets of the queue at a head.
fn are_valid_packets(store: &Store, at: QueuePlace, head: u32) -> bool
    requires known { AreTasksKnown store.now }
    requires queue { IsClaimedQueue store.now head }
    ensures { IsTrue result ↔
        AllByRecursion (IsValidPacket (lists_in store.now) (place_of at)) (packets_at store.now head) }
{
    for p in packets(store, head) {
        if !is_valid_packet(store, at, p) {
            return false;
        }
    }
    true
}

// Whether due ticks never fall along the queue at a head.
fn ticks_rise(store: &Store, head: u32) -> bool
    requires { HasQueue store.now head }
    ensures { IsTrue result ↔ NeverFall (packets_at store.now head) }
{
    let mut last = 0;
    for p in packets(store, head) {
        let due = word_at(store, p, RES2);
        if due < last {
            return false;
        }
        last = due;
    }
    true
}

// Whether the key packet is on a queue exactly where its link does not say that it is on none.
fn key_packet_is_told(store: &Store) -> bool
    requires { AreTasksKnown store.now }
    ensures { IsTrue result ↔ (is_some (lists_in store.now).key
        ≡ ((lists_in store.now).residents && not (is_queued key_packet (lists_in store.now)))) }
{
    if !has_residents(store) {
        return true;
    }
    let queued = is_queued(store, KEY_PACKET);
    if word(store, KEY_PACKET) == NO_QUEUE {
        !queued
    } else {
        queued
    }
}

// The same of the fault packet.
fn fault_packet_is_told(store: &Store) -> bool
    requires { AreTasksKnown store.now }
    ensures { IsTrue result ↔ ((lists_in store.now).fault_packet_free
        ≡ (has_task 2 (lists_in store.now).tasks && not (is_queued fault_packet (lists_in store.now)))) }
{
    if !is_task(store, REPORTER) {
        return true;
    }
    let queued = is_queued(store, FAULT_PACKET);
    if word(store, FAULT_PACKET) == NO_QUEUE {
        !queued
    } else {
        queued
    }
}
