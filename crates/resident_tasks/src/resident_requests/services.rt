// A request is answered, and bytes are written into its buffer.
ghost use Rattle.std.specs.Prelude.{◌≡◌, ◌≤◌, length};
ghost use Rattle.word_store.specs.Arithmetic.{word_of};
ghost use Rattle.kernel_model.specs.KernelRecord.Lists.{Lists};
ghost use Rattle.resident_tasks.specs.ResidentRequests.Answers.{answered};
ghost use Rattle.resident_tasks.specs.ResidentRequests.Requests.{HasRequest, RunsResident};
ghost use Rattle.resident_tasks.specs.ResidentRequests.Turns.{CanServe, IsServed, service};
ghost use Rattle.kernel_model.specs.KernelRecord.LoggedEvents.{LogsAll};
ghost use Rattle.kernel_model.specs.KernelRecord.ChangedStore.{HasKeeper};

use crate::resident_requests::answers::answer_request;
use crate::resident_requests::buffers::write_buffer;
use crate::resident_requests::requests::Request;
use kernel_lists::EventLog;
use kernel_model::KindKeeper;
use word_store::Store;

/// Writes these bytes into the words from `at` on, returns the request with the answer, and ends the turn. Where there are bytes,
/// a buffer with room for them begins there that may be written for the request.
pub fn serve_request<Q: KindKeeper, L: EventLog>(
    store: &mut Store,
    kinds: &mut Q,
    request: Request,
    from: i32,
    answer: Result<u32, u32>,
    at: u32,
    bytes: &[u8],
    log: &mut L,
)
    requires fits { length bytes.now ≤ 4096 }
    requires request { (l : Lists) × HasKeeper store.old (Q.tells kinds.old) (Q.room kinds.old) l
        × RunsResident l × HasRequest store.old l request × (word_of from ≡ l.running)
        × CanServe store.old l request (service answer at bytes.now) }
    ensures served { (l : Lists) → HasKeeper store.old (Q.tells kinds.old) (Q.room kinds.old) l
        → RunsResident l → HasRequest store.old l request → word_of from ≡ l.running
        → CanServe store.old l request (service answer at bytes.now)
        → IsServed store.old store.new (Q.tells kinds.new) l request (service answer at bytes.now) }
    ensures notes { (l : Lists) → HasKeeper store.old (Q.tells kinds.old) (Q.room kinds.old) l
        → RunsResident l → HasRequest store.old l request → word_of from ≡ l.running
        → CanServe store.old l request (service answer at bytes.now)
        → LogsAll L.EventLog log.old log.new
        (answered l request answer).events }
    ensures room { Q.room kinds.new ≡ Q.room kinds.old }
{
    write_buffer(store, at, bytes);
    answer_request(store, kinds, request, from, answer, log);
}
