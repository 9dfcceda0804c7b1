// Requests come to the console.
ghost use Rattle.std.specs.Prelude.{◌≡◌, ◌+◌, ◌++◌, ◌≤◌, List, Some, length, ℕ};
ghost use Rattle.kernel_calls.specs.CallAnswers.Outside.{outside};
ghost use Rattle.kernel_model.specs.KernelRecord.Kernel.{Console};
ghost use Rattle.resident_tasks.specs.ConsoleHandler.ConsoleTurn.{answer_of, bytes_of, with_first};
ghost use Rattle.resident_tasks.specs.ConsoleHandler.TurnParts.{ConsoleStart, ConsoleTurn, IsDone};
ghost use Rattle.resident_tasks.specs.ResidentRequests.Requests.{TakesRequest};

use crate::console_handler::reads::put_off;
use crate::resident_requests::requests::UNKNOWN_TYPE;
use crate::resident_requests::{Request, can_read, read_buffer, return_request, take_request};
use byte_streams::Output;
use kernel_lists::EventLog;
use kernel_model::KindKeeper;
use kernel_model::numbers::CONSOLE;
use word_store::Store;

/// The type of a read, which waits for a line.
pub const READ_LINE: u32 = 1;

/// The type of a write.
pub const WRITE: u32 = 2;

/// The code of a request whose buffer may not be read, or written.
pub const BAD_BUFFER: u32 = 30;

/// Takes the first request. A read waits, the bytes of a write go out, and any other request is refused (31).
pub(crate) fn take_first<Q: KindKeeper, L: EventLog>(
    store: &mut Store,
    kinds: &mut Q,
    bytes: &mut Output,
    log: &mut L,
)
    requires room { length bytes.old + 4096 ≤ 8192 }
    requires first { (b : ConsoleStart) × (c : Console) × (k : List ℕ) × (g : ConsoleTurn)
        × IsDone b store.old (Q.tells kinds.old) (Q.room kinds.old)
        (outside bytes.old (L.noted log.old) (L.has_failed log.old)) c k g × TakesRequest g.lists }
    ensures done { (b : ConsoleStart) (c : Console) (k : List ℕ) (g : ConsoleTurn)
        → IsDone b store.old (Q.tells kinds.old) (Q.room kinds.old)
        (outside bytes.old (L.noted log.old) (L.has_failed log.old)) c k g → TakesRequest g.lists
        → IsDone b store.new (Q.tells kinds.new) (Q.room kinds.new)
        (outside bytes.new (L.noted log.new) (L.has_failed log.new)) c k (with_first g) }
    ensures room { Q.room kinds.new ≡ Q.room kinds.old }
{
    let Some(request) = take_request(store, kinds, log) else {
        return;
    };
    if request.kind == READ_LINE {
        put_off(store, kinds, request, log);
        return;
    }
    let answer = answer(store, request, bytes);
    return_request(store, kinds, request, CONSOLE as i32, answer, log);
}

// The bytes of a write go out, and the answer is their number. Refused where its buffer may not be read (30), and where the request
// is no write (31).
fn answer(store: &Store, request: Request, bytes: &mut Output) -> Result<u32, u32>
    requires { length bytes.old + 4096 ≤ 8192 }
    ensures answer { result ≡ answer_of store.now request }
    ensures bytes { bytes.new ≡ bytes.old ++ bytes_of store.now request }
{
    if request.kind != WRITE {
        return Err(UNKNOWN_TYPE);
    }
    if !can_read(store, request.first, request.second) {
        return Err(BAD_BUFFER);
    }
    let text = read_buffer(store, request.first, request.second);
    bytes.append(text.as_slice());
    Ok(request.second)
}
