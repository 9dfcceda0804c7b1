// Whose packets residents and devices have.
ghost use Rattle.std.specs.Prelude.{◌≡◌, true};
ghost use Rattle.std.specs.List.{AllByRecursion};
ghost use Rattle.kernel_lists.specs.LinkedList.Walk.{CanWalk};
ghost use Rattle.kernel_lists.specs.PacketQueue.Queue.{HasQueue};
ghost use Rattle.kernel_lists.specs.TaskBlock.RootWords.{first_task};
ghost use Rattle.kernel_lists.specs.TaskBlock.TaskChain.{task_link, tasks_in};
ghost use Rattle.kernel_model.specs.KernelRecord.KernelRanges.{CanWalkLists, CanWalkTask, has_residents};
ghost use Rattle.kernel_model.specs.KernelRecord.Owned.{clock_head, keyboard_head, output_head};
ghost use Rattle.kernel_model.specs.KernelRecord.Residents.{pending_head};
ghost use Rattle.kernel_calls.specs.TaskCalls.Private.PacketsOut.{is_sender_at, is_sender_at_device, is_sender_of_read, is_sender_out, is_sender_to, is_sender_to_residents};

use kernel_lists::{FIRST_GUEST, RootField, TcbField, field, packets, root, tasks};
use kernel_model::numbers::{PENDING_HEAD, SENDER};
use word_store::{Store, word_at};

/// Whether a resident or a device has a packet from the task with the number, or one of its reads waits for a line.
pub(crate) fn has_packet_out(store: &Store, id: u32) -> bool
    requires { CanWalkLists store.now }
    ensures { result ≡ is_sender_out store.now id }
{
    if is_sender_to_residents(store, id) {
        return true;
    }
    if is_sender_at_device(store, id) {
        return true;
    }
    is_sender_of_read(store, id)
}

// Whether a packet at the clock, the keyboard or the output is from the task with the number.
fn is_sender_at_device(store: &Store, id: u32) -> bool
    requires clock { HasQueue store.now clock_head }
    requires keyboard { HasQueue store.now keyboard_head }
    requires output { HasQueue store.now output_head }
    ensures { result ≡ is_sender_at_device store.now id }
{
    if is_sender_at(store, RootField::ClockQueue.address(), id) {
        return true;
    }
    if is_sender_at(store, RootField::KeyQueue.address(), id) {
        return true;
    }
    is_sender_at(store, RootField::OutputQueue.address(), id)
}

// Whether a packet on the work queue of a resident is from the task with the number.
fn is_sender_to_residents(store: &Store, id: u32) -> bool
    requires chain { CanWalk store.now task_link first_task }
    requires tasks { AllByRecursion (CanWalkTask store.now) (tasks_in store.now) }
    ensures { result ≡ is_sender_to_residents store.now id }
{
    for t in tasks(store) {
        if is_sender_to(store, id, t) {
            return true;
        }
    }
    false
}

// Whether a packet on the work queue of the task at t is, where that is a resident.
fn is_sender_to(store: &Store, id: u32, t: u32) -> bool
    requires { CanWalkTask store.now t }
    ensures { result ≡ is_sender_to store.now id t }
{
    if field(store, t, TcbField::Id) >= FIRST_GUEST {
        return false;
    }
    is_sender_at(store, store.address_of(t, TcbField::Queue.index()), id)
}

// Whether a read that waits for a line is.
fn is_sender_of_read(store: &Store, id: u32) -> bool
    requires { has_residents store.now ≡ true → HasQueue store.now pending_head }
    ensures { result ≡ is_sender_of_read store.now id }
{
    if root(store, RootField::Residents) == 0 {
        return false;
    }
    is_sender_at(store, PENDING_HEAD, id)
}

// Whether a packet that is queued at the head is.
fn is_sender_at(store: &Store, head: u32, id: u32) -> bool
    requires { HasQueue store.now head }
    ensures { result ≡ is_sender_at store.now head id }
{
    for p in packets(store, head) {
        if word_at(store, p, SENDER) == id {
            return true;
        }
    }
    false
}
