// A resident returns a request, and ends its turn.
ghost use Rattle.std.specs.Prelude.{◌≡◌, Ok};
ghost use Rattle.word_store.specs.Arithmetic.{word_of};
ghost use Rattle.kernel_model.specs.KernelRecord.HoldsLists.{HoldsLists};
ghost use Rattle.kernel_model.specs.KernelRecord.Lists.{Lists};
ghost use Rattle.kernel_calls.specs.CallAnswers.CallChange.{IsMade, minus_one};
ghost use Rattle.resident_tasks.specs.ResidentRequests.Answers.{IsFinished, OwnsRequest, answered, res1_of, res2_of, returned};
ghost use Rattle.resident_tasks.specs.ResidentRequests.Requests.{HasRequest, RunsResident};
ghost use Rattle.kernel_model.specs.KernelRecord.LoggedEvents.{LogsAll};
ghost use Rattle.kernel_model.specs.KernelRecord.ChangedStore.{HasKeeper};

use crate::resident_requests::requests::Request;
use kernel_calls::reply;
use kernel_lists::{EventLog, RootField, TcbField, field, root, set_field};
use kernel_model::KindKeeper;
use kernel_model::numbers::{PACKET_WORDS, WAITS};
use word_store::Store;

/// The res1 of a request that is refused.
const REFUSED: u32 = 0xffff_ffff;

/// Returns the request to the task that sent it, from the resident that runs, whose number is `from`. Accepted, its res1 is the
/// answer and its res2 is 0; refused, its res1 is -1 and its res2 is the code. The keeper is told that the packet's words are the
/// kernel's again.
pub fn return_request<Q: KindKeeper, L: EventLog>(
    store: &mut Store,
    kinds: &mut Q,
    request: Request,
    from: i32,
    answer: Result<u32, u32>,
    log: &mut L,
)
    requires { (l : Lists) × HasKeeper store.old (Q.tells kinds.old) (Q.room kinds.old) l
        × RunsResident l × HasRequest store.old l request × (word_of from ≡ l.running) }
    ensures made { (l : Lists) → HasKeeper store.old (Q.tells kinds.old) (Q.room kinds.old) l
        → RunsResident l → HasRequest store.old l request → word_of from ≡ l.running
        → IsMade store.old store.new (Q.tells kinds.new) (Ok minus_one) (returned l request answer) }
    ensures notes { (l : Lists) → HasKeeper store.old (Q.tells kinds.old) (Q.room kinds.old) l
        → RunsResident l → HasRequest store.old l request → word_of from ≡ l.running
        → LogsAll L.EventLog log.old log.new
        (returned l request answer).events }
    ensures owns { (l : Lists) → HasKeeper store.old (Q.tells kinds.old) (Q.room kinds.old) l
        → RunsResident l → HasRequest store.old l request → word_of from ≡ l.running
        → OwnsRequest l (returned l request answer).lists request }
    ensures runs { (l : Lists) → RunsResident l → RunsResident (returned l request answer).lists }
    ensures room { Q.room kinds.new ≡ Q.room kinds.old }
{
    let (res1, res2) = results(answer);
    reply(store, request.packet, from, res1, res2, log);
    kinds.claim(request.packet, PACKET_WORDS);
}

// The results that a request gets with an answer.
fn results(answer: Result<u32, u32>) -> (u32, u32)
    ensures { result ≡ (res1_of answer, res2_of answer) }
{
    match answer {
        Ok(res1) => (res1, 0),
        Err(code) => (REFUSED, code),
    }
}

/// Ends the turn of the resident that runs: it waits where it has no packets, and still runs where it has some.
pub fn finish_turn(store: &mut Store)
    requires { (l : Lists) × HoldsLists store.old l × RunsResident l }
    ensures { (l : Lists) → HoldsLists store.old l → RunsResident l
        → IsFinished store.old store.new l }
{
    let task = root(store, RootField::Running);
    if field(store, task, TcbField::Queue) != 0 {
        return;
    }
    let state = field(store, task, TcbField::State);
    set_field(store, task, TcbField::State, state + WAITS);
}

/// Returns the request with this answer, as `return_request` does, and ends the turn.
pub fn answer_request<Q: KindKeeper, L: EventLog>(
    store: &mut Store,
    kinds: &mut Q,
    request: Request,
    from: i32,
    answer: Result<u32, u32>,
    log: &mut L,
)
    requires { (l : Lists) × HasKeeper store.old (Q.tells kinds.old) (Q.room kinds.old) l
        × RunsResident l × HasRequest store.old l request × (word_of from ≡ l.running) }
    ensures made { (l : Lists) → HasKeeper store.old (Q.tells kinds.old) (Q.room kinds.old) l
        → RunsResident l → HasRequest store.old l request → word_of from ≡ l.running
        → IsMade store.old store.new (Q.tells kinds.new) (Ok minus_one) (answered l request answer) }
    ensures notes { (l : Lists) → HasKeeper store.old (Q.tells kinds.old) (Q.room kinds.old) l
        → RunsResident l → HasRequest store.old l request → word_of from ≡ l.running
        → LogsAll L.EventLog log.old log.new
        (answered l request answer).events }
    ensures owns { (l : Lists) → HasKeeper store.old (Q.tells kinds.old) (Q.room kinds.old) l
        → RunsResident l → HasRequest store.old l request → word_of from ≡ l.running
        → OwnsRequest l (answered l request answer).lists request }
    ensures room { Q.room kinds.new ≡ Q.room kinds.old }
{
    return_request(store, kinds, request, from, answer, log);
    finish_turn(store);
}
