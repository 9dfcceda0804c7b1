// A task sends a packet.
ghost use Rattle.std.specs.Prelude.{◌≡◌, ◌+◌, ◌&&◌, not, true};
ghost use Rattle.kernel_lists.specs.GetvecChain.Block.{has_data};
ghost use Rattle.kernel_model.specs.KernelRecord.HoldsLists.{HoldsLists};
ghost use Rattle.kernel_model.specs.KernelRecord.Lists.{Lists};
ghost use Rattle.kernel_calls.specs.CallAnswers.Callers.{HasCaller};
ghost use Rattle.kernel_calls.specs.CallAnswers.CallChange.{IsMade, plain_answer};
ghost use Rattle.kernel_calls.specs.CallAnswers.Refusals.{answer_of, first_refusal};
ghost use Rattle.kernel_calls.specs.PacketCalls.Qpkt.{is_lodged, packet_tests, qpkt};
ghost use Rattle.kernel_model.specs.KernelRecord.LoggedEvents.{LogsAll};
ghost use Rattle.kernel_model.specs.KernelRecord.ChangedStore.{HasKeeper};

use crate::call_answers::caller;
use crate::call_answers::codes::{LINK_IN_USE, MISPLACED, NO_DESTINATION};
use crate::packet_calls::destinations::destination;
use crate::packet_calls::events::accepted;
use crate::packet_calls::packets::send;
use kernel_lists::{Block, EventLog, NO_QUEUE, TcbField, block_of, field};
use kernel_model::numbers::{PACKET_WORDS, SENDER};
use kernel_model::{KindKeeper, are_unowned};
use word_store::{Store, word, word_at};

/// Sends the packet at p to the task or the device that its word 1 names; this word has then the number of the task that
/// calls. At the clock (-1) its place is by its due tick, which is the tick plus the packet's word 5, but not above 2^32 - 1, and
/// which is then in its word 4; word 5 is read before any change, and is 0 where the store ends before it. In every other
/// queue it comes to the end. Refused where the words p to p + 4 are not all data of one used block (5), where word p is not
/// -1 (3), where one of the five words is the kernel's (5), and where word 1 names neither a task that is there nor a device
/// (4).
pub fn qpkt<Q: KindKeeper, L: EventLog>(
    store: &mut Store,
    kinds: &mut Q,
    p: u32,
    log: &mut L,
) -> Result<(), u32>
    requires { (l : Lists) × HasKeeper store.old (Q.tells kinds.old) (Q.room kinds.old) l
        × HasCaller l }
    ensures made { (l : Lists) → HasKeeper store.old (Q.tells kinds.old) (Q.room kinds.old) l
        → HasCaller l
        → IsMade store.old store.new (Q.tells kinds.new) (plain_answer result)
        (qpkt store.old l p) }
    ensures notes { (l : Lists) → HasKeeper store.old (Q.tells kinds.old) (Q.room kinds.old) l
        → HasCaller l → LogsAll L.EventLog log.old log.new (qpkt store.old l p).events }
    ensures room { Q.room kinds.new ≡ Q.room kinds.old }
{
    check_packet(store, kinds, p)?;
    let number = word_at(store, p, SENDER);
    let queue = destination(store, number).ok_or(NO_DESTINATION)?;
    let sender = field(store, caller(store), TcbField::Id);
    send(store, queue, p, sender);
    kinds.claim(p, PACKET_WORDS);
    log.note(accepted(number, p, sender));
    Ok(())
}

// Refused where the packet may not come into a queue.
fn check_packet<Q: KindKeeper>(store: &Store, kinds: &Q, p: u32) -> Result<(), u32>
    requires { (l : Lists) × HasKeeper store.now (Q.tells kinds.now) (Q.room kinds.now) l }
    ensures { (l : Lists) → HasKeeper store.now (Q.tells kinds.now) (Q.room kinds.now) l
        → result ≡ answer_of (first_refusal (packet_tests store.now l p)) }
{
    if !is_lodged(store, p) {
        return Err(MISPLACED);
    }
    if word(store, p) != NO_QUEUE {
        return Err(LINK_IN_USE);
    }
    if !are_unowned(store, kinds, p, PACKET_WORDS) {
        return Err(MISPLACED);
    }
    Ok(())
}

// Whether the packet's words are all data of one used block.
fn is_lodged(store: &Store, p: u32) -> bool
    requires { (l : Lists) × HoldsLists store.now l }
    ensures { (l : Lists) → HoldsLists store.now l → result ≡ is_lodged l p }
{
    match block_of(store, p) {
        Some(block) => has_packet_words(block, p),
        None => false,
    }
}

// Whether the block, of whose data word p is one, is used and has four more after it.
fn has_packet_words(block: Block, p: u32) -> bool
    requires { has_data block p ≡ true }
    ensures { result ≡ (not block.free && has_data block (p + 4)) }
{
    if block.free {
        return false;
    }
    block.size - (p - block.start) >= PACKET_WORDS
}
