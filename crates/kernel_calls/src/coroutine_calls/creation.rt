// A coroutine of the running task is made.
ghost use Rattle.std.specs.Prelude.{◌≡◌};
ghost use Rattle.kernel_model.specs.KernelRecord.Lists.{Lists};
ghost use Rattle.kernel_calls.specs.CallAnswers.Callers.{HasCaller};
ghost use Rattle.kernel_calls.specs.CallAnswers.CallChange.{IsMade};
ghost use Rattle.kernel_calls.specs.CoroutineCalls.CreateCo.{createco};
ghost use Rattle.kernel_model.specs.KernelRecord.ChangedStore.{HasKeeper};

use crate::block_calls::tell_take;
use crate::call_answers::caller;
use crate::call_answers::codes::NO_COROUTINE_ROOM;
use kernel_lists::{LEAST_HIGHEST, create_coroutine};
use kernel_model::KindKeeper;
use kernel_model::numbers::COROUTINE_WORDS;
use word_store::Store;

/// Makes a coroutine of the running task, the first in its list, in a block with the data words 0 to u, or to 16 where u is
/// less. It will start at the byte address `function`. The answer is its word address. Refused where no run of free blocks is
/// large enough (20).
pub fn createco<Q: KindKeeper>(
    store: &mut Store,
    kinds: &mut Q,
    function: u32,
    u: u32,
) -> Result<u32, u32>
    requires { (l : Lists)
        × HasKeeper store.old (Q.tells kinds.old) (Q.room kinds.old) l × HasCaller l }
    ensures made { (l : Lists) → HasKeeper store.old (Q.tells kinds.old) (Q.room kinds.old) l
        → HasCaller l
        → IsMade store.old store.new (Q.tells kinds.new) result (createco l function u) }
    ensures room { Q.room kinds.new ≡ Q.room kinds.old }
{
    let Ok(run) = tell_take(store, kinds, u.max(LEAST_HIGHEST)) else {
        return Err(NO_COROUTINE_ROOM);
    };
    let task = caller(store);
    let c = create_coroutine(store, run, task, function, u);
    kinds.claim(c, COROUTINE_WORDS);
    Ok(c)
}
