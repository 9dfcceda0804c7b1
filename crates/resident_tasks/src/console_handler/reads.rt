// The reads that wait for a line.
ghost use Rattle.std.specs.Prelude.{◌≡◌, Ok, true};
ghost use Rattle.kernel_model.specs.KernelRecord.Lists.{Lists};
ghost use Rattle.kernel_calls.specs.CallAnswers.CallChange.{IsMade, minus_one};
ghost use Rattle.resident_tasks.specs.ConsoleHandler.Reads.{IsReadTaken, put_off, read_taken};
ghost use Rattle.resident_tasks.specs.ResidentRequests.Answers.{OwnsRequest};
ghost use Rattle.resident_tasks.specs.ResidentRequests.Requests.{HasRequest};
ghost use Rattle.kernel_model.specs.KernelRecord.LoggedEvents.{LogsAll};
ghost use Rattle.kernel_model.specs.KernelRecord.ChangedStore.{HasKeeper};

use crate::resident_requests::{Request, request_at};
use kernel_calls::{Queue, accepted, first, send, taken, unqueue};
use kernel_lists::EventLog;
use kernel_model::KindKeeper;
use kernel_model::numbers::{PACKET_WORDS, PENDING, SENDER};
use word_store::{Store, word_at};

/// Puts the request, which was taken, at the end of the reads that wait, and tells the keeper that its words are the kernel's
/// again.
pub fn put_off<Q: KindKeeper, L: EventLog>(
    store: &mut Store,
    kinds: &mut Q,
    request: Request,
    log: &mut L,
)
    requires { (l : Lists) × HasKeeper store.old (Q.tells kinds.old) (Q.room kinds.old) l
        × HasRequest store.old l request × (l.residents ≡ true) }
    ensures made { (l : Lists) → HasKeeper store.old (Q.tells kinds.old) (Q.room kinds.old) l
        → HasRequest store.old l request → l.residents ≡ true
        → IsMade store.old store.new (Q.tells kinds.new) (Ok minus_one) (put_off store.old l request) }
    ensures notes { (l : Lists) → HasKeeper store.old (Q.tells kinds.old) (Q.room kinds.old) l
        → HasRequest store.old l request → l.residents ≡ true
        → LogsAll L.EventLog log.old log.new
        (put_off store.old l request).events }
    ensures owns { (l : Lists) → HasKeeper store.old (Q.tells kinds.old) (Q.room kinds.old) l
        → HasRequest store.old l request → l.residents ≡ true
        → OwnsRequest l (put_off store.old l request).lists request }
    ensures room { Q.room kinds.new ≡ Q.room kinds.old }
{
    send(store, Queue::Pending, request.packet, request.sender);
    kinds.claim(request.packet, PACKET_WORDS);
    log.note(accepted(PENDING, request.packet, request.sender));
}

/// Takes the first read that waits, which is then on no queue, with the link -1; its words are plain, and the keeper is told.
/// `None` exactly where none waits; then nothing changes.
pub fn take_read<Q: KindKeeper, L: EventLog>(
    store: &mut Store,
    kinds: &mut Q,
    log: &mut L,
) -> Option<Request>
    requires { (l : Lists) × HasKeeper store.old (Q.tells kinds.old) (Q.room kinds.old) l
        × (l.residents ≡ true) }
    ensures taken { (l : Lists) → HasKeeper store.old (Q.tells kinds.old) (Q.room kinds.old) l
        → l.residents ≡ true → IsReadTaken store.old store.new (Q.tells kinds.new) l result }
    ensures notes { (l : Lists) → HasKeeper store.old (Q.tells kinds.old) (Q.room kinds.old) l
        → l.residents ≡ true → LogsAll L.EventLog log.old log.new (read_taken l).events }
    ensures room { Q.room kinds.new ≡ Q.room kinds.old }
{
    let p = first(store, Queue::Pending);
    if p == 0 {
        return None;
    }
    unqueue(store, Queue::Pending, p);
    kinds.release(p, PACKET_WORDS);
    log.note(taken(PENDING, p, word_at(store, p, SENDER)));
    Some(request_at(store, p))
}
