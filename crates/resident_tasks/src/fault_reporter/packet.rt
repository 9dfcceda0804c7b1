// The fault packet goes to the task that reports faults, and comes off its queue.
ghost use Rattle.std.specs.Prelude.{◌≡◌, [], ◌∷◌, true};
ghost use Rattle.word_store.specs.Arithmetic.{signed};
ghost use Rattle.kernel_lists.specs.declared.packet_queue.events.KernelEvent.TheVariants.{Taken};
ghost use Rattle.resident_tasks.specs.ResidentRequests.Requests.{RunsResident, work};
ghost use Rattle.resident_tasks.specs.FaultReporter.FaultTurns.{IsFaultFirst, sender_of, fault_taken_from};
ghost use Rattle.kernel_model.specs.KernelRecord.HoldsLists.{HoldsLists};
ghost use Rattle.kernel_model.specs.KernelRecord.Lists.{Lists, has_task};
ghost use Rattle.kernel_calls.specs.CallAnswers.Callers.{HasCaller};
ghost use Rattle.resident_tasks.specs.FaultReporter.Recorded.{OwnsSame, sent, sent_events};
ghost use Rattle.kernel_model.specs.KernelRecord.LoggedEvents.{LogsAll};

use kernel_calls::{Queue, accepted, caller, has_packet, send, taken, unqueue};
use kernel_lists::{EventLog, RootField, TcbField, field, find, root};
use kernel_model::numbers::{FAULT_KIND, FAULT_PACKET, KIND, REPORTER, SENDER};
use word_store::{Store, set_word_at, word_at};

// Where the fault packet is on no queue, it comes to the task that reports faults from the guest that runs.
pub(crate) fn send_packet<L: EventLog>(store: &mut Store, log: &mut L)
    requires { (l : Lists) × HoldsLists store.old l × HasCaller l × (has_task REPORTER l.tasks ≡ true) }
    ensures sent { (l : Lists) → HoldsLists store.old l → HasCaller l → has_task REPORTER l.tasks ≡ true
        → OwnsSame store.old store.new l (sent l) }
    ensures notes { (l : Lists) → HoldsLists store.old l → HasCaller l → has_task REPORTER l.tasks ≡ true
        → LogsAll L.EventLog log.old log.new
        (sent_events l) }
{
    let Some(reporter) = find(store, REPORTER) else {
        return;
    };
    let queue = Queue::Work(reporter);
    if has_packet(store, queue, FAULT_PACKET) {
        return;
    }
    let sender = field(store, caller(store), TcbField::Id);
    set_word_at(store, FAULT_PACKET, KIND, FAULT_KIND);
    send(store, queue, FAULT_PACKET, sender);
    log.note(accepted(REPORTER, FAULT_PACKET, sender));
}

// The fault packet, the first of the task that reports faults, goes off its queue.
pub(crate) fn take_packet<L: EventLog>(store: &mut Store, log: &mut L)
    requires { (l : Lists) × HoldsLists store.old l × RunsResident l × (l.running ≡ REPORTER)
        × IsFaultFirst (work l) }
    ensures taken { (l : Lists) → HoldsLists store.old l → RunsResident l → l.running ≡ REPORTER
        → IsFaultFirst (work l) → OwnsSame store.old store.new l (fault_taken_from (work l) l) }
    ensures notes { (l : Lists) → HoldsLists store.old l → RunsResident l → l.running ≡ REPORTER
        → IsFaultFirst (work l) → LogsAll L.EventLog log.old log.new
        (Taken (signed REPORTER) FAULT_PACKET (signed (sender_of (work l))) ∷ []) }
{
    let task = root(store, RootField::Running);
    let sender = word_at(store, FAULT_PACKET, SENDER);
    unqueue(store, Queue::Work(task), FAULT_PACKET);
    set_word_at(store, FAULT_PACKET, SENDER, 0);
    set_word_at(store, FAULT_PACKET, KIND, 0);
    log.note(taken(REPORTER, FAULT_PACKET, sender));
}
