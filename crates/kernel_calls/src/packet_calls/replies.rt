// A packet is returned to the task that sent it.
ghost use Rattle.std.specs.Prelude.{◌≡◌, Ok};
ghost use Rattle.word_store.specs.Arithmetic.{word_of};
ghost use Rattle.kernel_model.specs.KernelRecord.HoldsLists.{HoldsLists};
ghost use Rattle.kernel_model.specs.KernelRecord.Lists.{Lists};
ghost use Rattle.kernel_calls.specs.CallAnswers.CallChange.{Leaves, minus_one};
ghost use Rattle.kernel_calls.specs.PacketCalls.Reply.{CanReply, reply};
ghost use Rattle.kernel_model.specs.KernelRecord.LoggedEvents.{LogsAll};

use crate::packet_calls::Queue;
use crate::packet_calls::destinations::number_word;
use crate::packet_calls::events::accepted;
use crate::packet_calls::packets::give_back;
use kernel_lists::{EventLog, find};
use kernel_model::numbers::SENDER;
use word_store::{Store, word_at};

/// Returns the packet at p, which is on no queue, with these results to the task that its word 1 names: it comes to the end of
/// the work queue of that task, and its word 1 has then the number of who returns it. A keeper that was not told that its
/// words ceased to be the kernel's knows the words of the lists then.
pub fn reply<L: EventLog>(store: &mut Store, p: u32, from: i32, res1: u32, res2: u32, log: &mut L)
    requires { (l : Lists) × HoldsLists store.old l × CanReply store.old l p (word_of from) }
    ensures made { (l : Lists) → HoldsLists store.old l → CanReply store.old l p (word_of from)
        → Leaves store.old store.new (Ok minus_one) (reply store.old l p (word_of from) res1 res2) }
    ensures notes { (l : Lists) → HoldsLists store.old l → CanReply store.old l p (word_of from)
        → LogsAll L.EventLog log.old log.new (reply store.old l p (word_of from) res1 res2).events }
{
    let sender = word_at(store, p, SENDER);
    let Some(task) = find(store, sender) else {
        return;
    };
    let from = number_word(from);
    give_back(store, Queue::Work(task), p, from, res1, res2);
    log.note(accepted(sender, p, from));
}
