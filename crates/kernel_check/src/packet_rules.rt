// Whether a packet may be where it is queued.
ghost use Rattle.std.specs.Prelude.{◌≡◌, ◌↔◌, IsTrue, true};
ghost use Rattle.kernel_model.specs.KernelRecord.Lists.{has_task};
ghost use Rattle.kernel_model.specs.KernelRecord.Recovered.{lists_in, packet_in};
ghost use Rattle.kernel_model.specs.KernelRecord.ValidBlocks.{AreData};
ghost use Rattle.kernel_model.specs.KernelRecord.ValidQueues.{HasSender, IsFaultPacket, IsKeyPacket, IsKeyPlace, IsValidPacket, Place, is_fault_packet, is_key_packet};
ghost use Rattle.kernel_model.specs.KernelRecord.ValidQueues.Place.{Work};
ghost use Rattle.kernel_check.specs.KnownTasks.{AreTasksKnown};
ghost use Rattle.kernel_check.specs.Private.Places.{place_of};

use crate::list_passes::{has_residents, highest_of};
use crate::places::QueuePlace;
use kernel_lists::{FIRST_GUEST, TABLE};
use kernel_model::numbers::{
    CONSOLE, FAULT_KIND, FAULT_PACKET, KEY_PACKET, KEYBOARD, KIND, REPORTER, RES1, RES2, SENDER,
};
use word_store::{Store, word, word_at};

/// Whether the packet at p may be at the place. It looks at its words and at one entry of the task table.
pub(crate) fn is_valid_packet(store: &Store, at: QueuePlace, p: u32) -> bool
    requires known { AreTasksKnown store.now }
    requires lodged { AreData (lists_in store.now).blocks p 5 }
    ensures { IsTrue result ↔ IsValidPacket (lists_in store.now) (place_of at) (packet_in store.now p) }
{
    if is_key_packet(store, p) {
        return is_valid_key_packet(store, at, p);
    }
    if !fault_rule_holds(store, at, p) {
        return false;
    }
    has_sender(store, at, word_at(store, p, SENDER))
}

// Whether it is the key packet.
fn is_key_packet(store: &Store, p: u32) -> bool
    ensures { result ≡ is_key_packet (lists_in store.now) (packet_in store.now p) }
{
    has_residents(store) && p == KEY_PACKET
}

// Whether the key packet may be there.
fn is_valid_key_packet(store: &Store, at: QueuePlace, p: u32) -> bool
    ensures { IsTrue result ↔ IsKeyPacket (place_of at) (packet_in store.now p) }
{
    if word_at(store, p, KIND) != 0 {
        return false;
    }
    if word_at(store, p, RES2) != 0 {
        return false;
    }
    is_key_place(at, word_at(store, p, SENDER))
}

// Whether the place is the keyboard, and the sender the console, or the other way round.
fn is_key_place(at: QueuePlace, sender: u32) -> bool
    ensures { IsTrue result ↔ IsKeyPlace (place_of at) sender }
{
    match at {
        QueuePlace::OfTask(id) => id == CONSOLE && sender == KEYBOARD,
        QueuePlace::OfKeyboard => sender == CONSOLE,
        QueuePlace::OfClock => false,
        QueuePlace::OfOutput => false,
        QueuePlace::OfConsole => false,
    }
}

// Whether it is not the fault packet, or may be there.
fn fault_rule_holds(store: &Store, at: QueuePlace, p: u32) -> bool
    requires { AreTasksKnown store.now }
    ensures { IsTrue result ↔ (is_fault_packet (lists_in store.now) (packet_in store.now p) ≡ true
        → IsFaultPacket (place_of at) (packet_in store.now p)) }
{
    if !is_fault_packet(store, p) {
        return true;
    }
    is_valid_fault_packet(store, at, p)
}

// Whether it is the fault packet.
fn is_fault_packet(store: &Store, p: u32) -> bool
    requires { AreTasksKnown store.now }
    ensures { result ≡ is_fault_packet (lists_in store.now) (packet_in store.now p) }
{
    is_task(store, REPORTER) && p == FAULT_PACKET
}

// Whether the fault packet may be there.
fn is_valid_fault_packet(store: &Store, at: QueuePlace, p: u32) -> bool
    ensures { IsTrue result ↔ IsFaultPacket (place_of at) (packet_in store.now p) }
{
    if word_at(store, p, KIND) != FAULT_KIND {
        return false;
    }
    if word_at(store, p, RES1) != 0 {
        return false;
    }
    if word_at(store, p, RES2) != 0 {
        return false;
    }
    is_fault_place(at)
}

// Whether the place is the work queue of the task that reports faults.
fn is_fault_place(at: QueuePlace) -> bool
    ensures { IsTrue result ↔ (place_of at ≡ Work 2) }
{
    match at {
        QueuePlace::OfTask(id) => id == REPORTER,
        QueuePlace::OfKeyboard => false,
        QueuePlace::OfClock => false,
        QueuePlace::OfOutput => false,
        QueuePlace::OfConsole => false,
    }
}

// Whether a packet that is there may be from the sender.
fn has_sender(store: &Store, at: QueuePlace, sender: u32) -> bool
    requires { AreTasksKnown store.now }
    ensures { IsTrue result ↔ HasSender (lists_in store.now) (place_of at) sender }
{
    match at {
        QueuePlace::OfTask(id) => id >= FIRST_GUEST || is_task(store, sender),
        QueuePlace::OfConsole => is_task(store, sender),
        QueuePlace::OfKeyboard => sender >= FIRST_GUEST && is_task(store, sender),
        QueuePlace::OfClock => sender >= FIRST_GUEST && is_task(store, sender),
        QueuePlace::OfOutput => sender >= FIRST_GUEST && is_task(store, sender),
    }
}

/// Whether there is a task with the number. The entry of the task table tells it.
pub(crate) fn is_task(store: &Store, id: u32) -> bool
    requires { AreTasksKnown store.now }
    ensures { result ≡ has_task id (lists_in store.now).tasks }
{
    if id == 0 {
        return false;
    }
    if id > highest_of(store) {
        return false;
    }
    word(store, TABLE + id) != 0
}
