// A task takes a packet back out of a queue.
ghost use Rattle.std.specs.Prelude.{◌≡◌, true};
ghost use Rattle.std.specs.Option.{option_map};
ghost use Rattle.kernel_model.specs.KernelRecord.HoldsLists.{HoldsLists};
ghost use Rattle.kernel_model.specs.KernelRecord.Lists.{Lists};
ghost use Rattle.kernel_calls.specs.CallAnswers.Callers.{HasCaller};
ghost use Rattle.kernel_calls.specs.CallAnswers.CallChange.{IsMade};
ghost use Rattle.kernel_calls.specs.PacketCalls.Destinations.{is_destination, place_of, queue_for};
ghost use Rattle.kernel_calls.specs.PacketCalls.Dqpkt.{dqpkt, found_in, found_in_own, is_residents_packet, located};
ghost use Rattle.kernel_model.specs.KernelRecord.LoggedEvents.{LogsAll};
ghost use Rattle.kernel_model.specs.KernelRecord.ChangedStore.{HasKeeper};

use crate::call_answers::caller;
use crate::call_answers::codes::{NO_DESTINATION, NOT_QUEUED, RESIDENT};
use crate::packet_calls::Queue;
use crate::packet_calls::destinations::destination;
use crate::packet_calls::events::dequeued;
use crate::packet_calls::queues::{has_packet, unqueue};
use kernel_lists::{EventLog, RootField, TcbField, field, find, root};
use kernel_model::KindKeeper;
use kernel_model::numbers::{
    CONSOLE, FAULT_PACKET, KEY_PACKET, PACKET_WORDS, PENDING, REPORTER, SENDER,
};
use word_store::{Store, set_word_at};

/// The queue in which a packet was found: its number, as events name it, and what the call answers then.
#[derive(Clone, Copy)]
pub(crate) struct Found {
    /// The queue that has the packet.
    queue: Queue,
    /// Its number, as events name it.
    number: u32,
    /// What the call answers.
    answer: u32,
}

/// Takes the packet at p out of the first of these queues that has it: that of the task or device with the number; where this
/// is the console (3), the reads that wait for a line; the work queue of the task that calls. The packet is then on no queue,
/// and its word 1 is the answer: the number, or that of the task that calls, where only its own queue had the packet. Refused
/// where the number names neither a task that is there nor a device (4), where the packet is on none of the queues (19), and
/// where it is the console's key packet or the packet of the task that reports faults (14).
pub fn dqpkt<Q: KindKeeper, L: EventLog>(
    store: &mut Store,
    kinds: &mut Q,
    id: u32,
    p: u32,
    log: &mut L,
) -> Result<u32, u32>
    requires { (l : Lists) × HasKeeper store.old (Q.tells kinds.old) (Q.room kinds.old) l
        × HasCaller l }
    ensures made { (l : Lists) → HasKeeper store.old (Q.tells kinds.old) (Q.room kinds.old) l
        → HasCaller l
        → IsMade store.old store.new (Q.tells kinds.new) result (dqpkt l id p) }
    ensures notes { (l : Lists) → HasKeeper store.old (Q.tells kinds.old) (Q.room kinds.old) l
        → HasCaller l → LogsAll L.EventLog log.old log.new (dqpkt l id p).events }
    ensures room { Q.room kinds.new ≡ Q.room kinds.old }
{
    let named = destination(store, id).ok_or(NO_DESTINATION)?;
    let found = find_packet(store, id, named, p).ok_or(NOT_QUEUED)?;
    if is_residents_packet(store, p) {
        return Err(RESIDENT);
    }
    unqueue(store, found.queue, p);
    set_word_at(store, p, SENDER, found.answer);
    kinds.release(p, PACKET_WORDS);
    log.note(dequeued(found.number, p));
    Ok(found.answer)
}

// The first of the queues that has the packet. The number is that of a task or a device, which has the queue `named`.
fn find_packet(store: &Store, id: u32, named: Queue, p: u32) -> Option<Found>
    requires { (l : Lists) × HoldsLists store.now l × HasCaller l
        × (is_destination l id ≡ true) × (named ≡ queue_for l (place_of id)) }
    ensures { (l : Lists) → HoldsLists store.now l → HasCaller l → is_destination l id ≡ true
        → named ≡ queue_for l (place_of id)
        → result ≡ option_map (located l) (found_in l id p) }
{
    if has_packet(store, named, p) {
        return Some(Found {
            queue: named,
            number: id,
            answer: id,
        });
    }
    if id != CONSOLE {
        return find_own(store, p);
    }
    if has_packet(store, Queue::Pending, p) {
        return Some(Found {
            queue: Queue::Pending,
            number: PENDING,
            answer: id,
        });
    }
    find_own(store, p)
}

// The queue of the task that calls, where it has the packet.
fn find_own(store: &Store, p: u32) -> Option<Found>
    requires { (l : Lists) × HoldsLists store.now l × HasCaller l }
    ensures { (l : Lists) → HoldsLists store.now l → HasCaller l
        → result ≡ option_map (located l) (found_in_own l p) }
{
    let task = caller(store);
    let queue = Queue::Work(task);
    if !has_packet(store, queue, p) {
        return None;
    }
    let number = field(store, task, TcbField::Id);
    Some(Found {
        queue,
        number,
        answer: number,
    })
}

// Whether it is one of the residents' own packets.
fn is_residents_packet(store: &Store, p: u32) -> bool
    requires { (l : Lists) × HoldsLists store.now l }
    ensures { (l : Lists) → HoldsLists store.now l → result ≡ is_residents_packet l p }
{
    match p {
        KEY_PACKET => root(store, RootField::Residents) != 0,
        FAULT_PACKET => find(store, REPORTER).is_some(),
        _ => false,
    }
}
