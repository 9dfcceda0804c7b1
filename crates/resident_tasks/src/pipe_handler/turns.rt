// The turn of the file handler in which its request is for a pipe.
ghost use Rattle.std.specs.Prelude.{◌≡◌, ℕ, List};
ghost use Rattle.kernel_model.specs.KernelRecord.Lists.{Lists};
ghost use Rattle.kernel_calls.specs.CallAnswers.Outside.{outside};
ghost use Rattle.resident_tasks.specs.ResidentRequests.Requests.{TakesRequest};
ghost use Rattle.resident_tasks.specs.ResidentRequests.Turns.{IsResidentTurn};
ghost use Rattle.resident_tasks.specs.PipeHandler.PipeTurns.{pipe_turn, pipes_after_turn};
ghost use Rattle.kernel_model.specs.KernelRecord.ChangedStore.{HasKeeper};

use crate::pipe_handler::Pipes;
use crate::pipe_handler::requests::serve;
use crate::resident_requests::{finish_turn, serve_request, take_request};
use kernel_lists::EventLog;
use kernel_model::KindKeeper;
use kernel_model::numbers::FILE_HANDLER;
use word_store::Store;

/// The file handler, which runs, takes its first request, does what it says of pipes, and returns it; or waits, where it has none.
/// A request of another type than 20 to 23 is refused (31).
pub fn pipe_turn<Q: KindKeeper, L: EventLog>(
    pipes: &mut Pipes,
    store: &mut Store,
    kinds: &mut Q,
    log: &mut L,
)
    requires { (l : Lists) × HasKeeper store.old (Q.tells kinds.old) (Q.room kinds.old) l
        × TakesRequest l × (FILE_HANDLER ≡ l.running) }
    ensures turn { (l : Lists) (shown : List ℕ)
        → HasKeeper store.old (Q.tells kinds.old) (Q.room kinds.old) l → TakesRequest l
        → FILE_HANDLER ≡ l.running
        → IsResidentTurn store.new (Q.tells kinds.new)
        (outside shown (L.noted log.old) (L.has_failed log.old))
        (outside shown (L.noted log.new) (L.has_failed log.new))
        (pipe_turn pipes.old store.old l) }
    ensures pipes { (l : Lists) → HasKeeper store.old (Q.tells kinds.old) (Q.room kinds.old) l
        → TakesRequest l → pipes.new ≡ pipes_after_turn pipes.old store.old l }
    ensures room { Q.room kinds.new ≡ Q.room kinds.old }
{
    match take_request(store, kinds, log) {
        Some(request) => {
            let mut bytes = [0; 4096];
            let (answer, count) = serve(pipes, store, kinds, request, &mut bytes);
            let given = &bytes[..count];
            serve_request(
                store,
                kinds,
                request,
                FILE_HANDLER as i32,
                answer,
                request.second,
                given,
                log,
            );
        }
        None => finish_turn(store),
    }
}
