// The turn of the file handler.
ghost use Rattle.std.specs.Prelude.{◌≡◌, ℕ, List, []};
ghost use Rattle.kernel_model.specs.KernelRecord.Lists.{Lists};
ghost use Rattle.kernel_calls.specs.CallAnswers.Outside.{outside};
ghost use Rattle.resident_tasks.specs.ResidentRequests.Turns.{IsResidentTurn};
ghost use Rattle.resident_tasks.specs.FileHandler.FileRequests.{file_request, handled};
ghost use Rattle.resident_tasks.specs.FileHandler.FileTurn.{RunsFileHandler, disc_after_turn, file_turn};
ghost use Rattle.kernel_model.specs.KernelRecord.ChangedStore.{HasKeeper};

use crate::file_handler::calls::{FileCall, file_call};
use crate::file_handler::files::{delete, examine, open_to_read, open_to_write, rename};
use crate::file_handler::streams::{append, close, read_on};
use crate::resident_requests::requests::UNKNOWN_TYPE;
use crate::resident_requests::{Request, finish_turn, serve_request, take_request};
use arrayvec::ArrayVec;
use kernel_lists::EventLog;
use kernel_model::KindKeeper;
use kernel_model::numbers::FILE_HANDLER;
use ram_disc::Disc;
use word_store::Store;

/// The turn of the file handler, which runs: it takes its first request, does on the disc what is asked, writes bytes into the
/// request's buffer, and returns the request with its answer. A request of a type that is none of its own is refused (31).
/// Without a request it waits. On their way between the disc and the store the bytes are in `bytes`, and what is there before the turn
/// is dropped.
pub fn file_turn<Q: KindKeeper, L: EventLog>(
    disc: &mut Disc,
    store: &mut Store,
    kinds: &mut Q,
    bytes: &mut ArrayVec<u8, 4096>,
    log: &mut L,
)
    requires { (l : Lists) × HasKeeper store.old (Q.tells kinds.old) (Q.room kinds.old) l
        × RunsFileHandler l }
    ensures turn { (l : Lists) (shown : List ℕ)
        → HasKeeper store.old (Q.tells kinds.old) (Q.room kinds.old) l → RunsFileHandler l
        → IsResidentTurn store.new (Q.tells kinds.new)
        (outside shown (L.noted log.old) (L.has_failed log.old))
        (outside shown (L.noted log.new) (L.has_failed log.new))
        (file_turn disc.old store.old l) }
    ensures disc { (l : Lists) → HasKeeper store.old (Q.tells kinds.old) (Q.room kinds.old) l
        → RunsFileHandler l → disc.new ≡ disc_after_turn disc.old store.old l }
    ensures room { Q.room kinds.new ≡ Q.room kinds.old }
{
    match take_request(store, kinds, log) {
        Some(request) => {
            bytes.clear();
            let answer = file_request(disc, store, kinds, request, bytes);
            let buffer = request.second;
            let bytes = bytes.as_slice();
            serve_request(
                store,
                kinds,
                request,
                FILE_HANDLER as i32,
                answer,
                buffer,
                bytes,
                log,
            );
        }
        None => finish_turn(store),
    }
}

// Does on the disc what the request asks, and puts the bytes for its buffer into `bytes`.
fn file_request<Q: KindKeeper>(
    disc: &mut Disc,
    store: &Store,
    kinds: &Q,
    request: Request,
    bytes: &mut ArrayVec<u8, 4096>,
) -> Result<u32, u32>
    requires keeper { (l : Lists) × HasKeeper store.now (Q.tells kinds.now) (Q.room kinds.now) l }
    requires empty { bytes.old.items ≡ [] }
    ensures { (l : Lists) → HasKeeper store.now (Q.tells kinds.now) (Q.room kinds.now) l
        → handled disc.new result bytes.new.items ≡ file_request disc.old store.now l request }
{
    match file_call(request.kind) {
        Some(FileCall::OpenToRead) => open_to_read(disc, store, request),
        Some(FileCall::OpenToWrite) => open_to_write(disc, store, request),
        Some(FileCall::ReadOn) => read_on(disc, store, kinds, request, bytes),
        Some(FileCall::Append) => append(disc, store, request, bytes),
        Some(FileCall::Close) => close(disc, request),
        Some(FileCall::Delete) => delete(disc, store, request),
        Some(FileCall::Rename) => rename(disc, store, request),
        Some(FileCall::Examine) => examine(disc, store, kinds, request, bytes),
        None => Err(UNKNOWN_TYPE),
    }
}
