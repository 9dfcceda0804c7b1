// A resident sends a packet of its own.
ghost use Rattle.std.specs.Prelude.{◌≡◌, Ok};
ghost use Rattle.word_store.specs.Arithmetic.{word_of};
ghost use Rattle.kernel_model.specs.KernelRecord.Lists.{Lists};
ghost use Rattle.kernel_calls.specs.CallAnswers.CallChange.{IsMade, minus_one};
ghost use Rattle.kernel_calls.specs.PacketCalls.SendOwn.{CanSendOwn, send_own};
ghost use Rattle.kernel_model.specs.KernelRecord.LoggedEvents.{LogsAll};
ghost use Rattle.kernel_model.specs.KernelRecord.ChangedStore.{HasKeeper};

use crate::packet_calls::destinations::{destination, number_word};
use crate::packet_calls::events::accepted;
use crate::packet_calls::packets::send;
use kernel_lists::EventLog;
use kernel_model::KindKeeper;
use kernel_model::numbers::{KEYBOARD, PACKET_WORDS};
use word_store::Store;

/// Sends the packet at p, which is on no queue, from the task `from` to the end of the work queue of the task `to`. Or it sends
/// the console's key packet to the keyboard (-2): the words of this packet are the kernel's whether it is queued or not, so the
/// keeper is not told of them.
pub fn send_own<Q: KindKeeper, L: EventLog>(
    store: &mut Store,
    kinds: &mut Q,
    p: u32,
    from: u32,
    to: i32,
    log: &mut L,
)
    requires { (l : Lists) × HasKeeper store.old (Q.tells kinds.old) (Q.room kinds.old) l
        × CanSendOwn l p from (word_of to) }
    ensures made { (l : Lists) → HasKeeper store.old (Q.tells kinds.old) (Q.room kinds.old) l
        → CanSendOwn l p from (word_of to)
        → IsMade store.old store.new (Q.tells kinds.new) (Ok minus_one)
        (send_own store.old l p from (word_of to)) }
    ensures notes { (l : Lists) → HasKeeper store.old (Q.tells kinds.old) (Q.room kinds.old) l
        → CanSendOwn l p from (word_of to) → LogsAll L.EventLog log.old log.new (send_own store.old l p from (word_of to)).events }
    ensures room { Q.room kinds.new ≡ Q.room kinds.old }
{
    let number = number_word(to);
    let Some(queue) = destination(store, number) else {
        return;
    };
    send(store, queue, p, from);
    log.note(accepted(number, p, from));
    if number == KEYBOARD {
        return;
    }
    kinds.claim(p, PACKET_WORDS);
}
