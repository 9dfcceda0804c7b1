// A task takes its first packet, or waits for one.
ghost use Rattle.std.specs.Prelude.{◌≡◌};
ghost use Rattle.kernel_model.specs.KernelRecord.Lists.{Lists};
ghost use Rattle.kernel_model.specs.KernelRecord.Changes.{queue_of};
ghost use Rattle.kernel_model.specs.KernelRecord.ValidQueues.Place.{Work};
ghost use Rattle.kernel_calls.specs.CallAnswers.Callers.{HasCaller};
ghost use Rattle.kernel_calls.specs.CallAnswers.CallChange.{IsMade};
ghost use Rattle.kernel_calls.specs.PacketCalls.TaskWait.{answer_of_wait, first_of_queue, taskwait};
ghost use Rattle.kernel_model.specs.KernelRecord.LoggedEvents.{LogsAll};
ghost use Rattle.kernel_model.specs.KernelRecord.ChangedStore.{HasKeeper};

use crate::call_answers::caller;
use crate::packet_calls::Queue;
use crate::packet_calls::events::taken;
use crate::packet_calls::queues::unqueue;
use kernel_lists::{EventLog, TcbField, field, set_field};
use kernel_model::KindKeeper;
use kernel_model::numbers::{PACKET_WORDS, SENDER, WAITS};
use word_store::{Store, word_at};

/// The task that calls takes its first packet, which is then on no queue. Where it has none, it waits, and there is no answer
/// yet.
pub fn taskwait<Q: KindKeeper, L: EventLog>(
    store: &mut Store,
    kinds: &mut Q,
    log: &mut L,
) -> Option<u32>
    requires { (l : Lists) × HasKeeper store.old (Q.tells kinds.old) (Q.room kinds.old) l
        × HasCaller l }
    ensures made { (l : Lists) → HasKeeper store.old (Q.tells kinds.old) (Q.room kinds.old) l
        → HasCaller l
        → IsMade store.old store.new (Q.tells kinds.new) (answer_of_wait result) (taskwait l) }
    ensures packet { (l : Lists) → HasKeeper store.old (Q.tells kinds.old) (Q.room kinds.old) l
        → HasCaller l → result ≡ first_of_queue (queue_of (Work l.running) l) }
    ensures notes { (l : Lists) → HasKeeper store.old (Q.tells kinds.old) (Q.room kinds.old) l
        → HasCaller l → LogsAll L.EventLog log.old log.new (taskwait l).events }
    ensures room { Q.room kinds.new ≡ Q.room kinds.old }
{
    let task = caller(store);
    let p = field(store, task, TcbField::Queue);
    if p == 0 {
        let state = field(store, task, TcbField::State);
        set_field(store, task, TcbField::State, state + WAITS);
        return None;
    }
    let id = field(store, task, TcbField::Id);
    unqueue(store, Queue::Work(task), p);
    kinds.release(p, PACKET_WORDS);
    log.note(taken(id, p, word_at(store, p, SENDER)));
    Some(p)
}
