// A coroutine of the running task is deleted.
ghost use Rattle.std.specs.Prelude.{◌≡◌, ◌+◌, ◌↔◌, IsTrue};
ghost use Rattle.kernel_lists.specs.declared.getvec_chain.pieces.Block.{Block};
ghost use Rattle.kernel_lists.specs.GetvecChain.Block.{block_end};
ghost use Rattle.kernel_model.specs.KernelRecord.Changes.{AreUnowned};
ghost use Rattle.kernel_model.specs.KernelRecord.Lists.{Lists};
ghost use Rattle.kernel_calls.specs.CallAnswers.Callers.{HasCaller};
ghost use Rattle.kernel_calls.specs.CallAnswers.CallChange.{IsMade, plain_answer};
ghost use Rattle.kernel_calls.specs.CoroutineCalls.DeleteCo.{IsRoomy, deleteco};
ghost use Rattle.kernel_model.specs.KernelRecord.ChangedStore.{HasKeeper};

use crate::call_answers::caller;
use crate::call_answers::codes::PACKET_IN_COROUTINE;
use crate::coroutine_calls::refusals::coded;
use kernel_lists::{check_idle, delete_coroutine};
use kernel_model::numbers::COROUTINE_WORDS;
use kernel_model::{KindKeeper, are_unowned};
use word_store::{Store, word};

/// Deletes the coroutine c of the running task and gives its block back. Refused where the task has no such coroutine (21),
/// where it has a parent (22), and where a queued packet lies in its block (24).
pub fn deleteco<Q: KindKeeper>(store: &mut Store, kinds: &mut Q, c: u32) -> Result<(), u32>
    requires { (l : Lists)
        × HasKeeper store.old (Q.tells kinds.old) (Q.room kinds.old) l × HasCaller l }
    ensures made { (l : Lists) → HasKeeper store.old (Q.tells kinds.old) (Q.room kinds.old) l
        → HasCaller l
        → IsMade store.old store.new (Q.tells kinds.new) (plain_answer result) (deleteco l c) }
    ensures room { Q.room kinds.new ≡ Q.room kinds.old }
{
    let task = caller(store);
    coded(check_idle(store, task, c))?;
    if !is_clear_behind(store, kinds, c) {
        return Err(PACKET_IN_COROUTINE);
    }
    delete_coroutine(store, task, c).unwrap();
    kinds.release(c, COROUTINE_WORDS);
    Ok(())
}

// Whether nobody owns the words of the block at c that come after a coroutine's own.
fn is_clear_behind<Q: KindKeeper>(store: &Store, kinds: &Q, c: u32) -> bool
    requires { (l : Lists) × (b : Block)
        × HasKeeper store.now (Q.tells kinds.now) (Q.room kinds.now) l × IsRoomy l c b }
    ensures { (l : Lists) (b : Block)
        → HasKeeper store.now (Q.tells kinds.now) (Q.room kinds.now) l → IsRoomy l c b
        → IsTrue result ↔ AreUnowned l (c + 10) (block_end b) }
{
    let size = word(store, c - 1);
    let behind = store.address_of(c, COROUTINE_WORDS);
    are_unowned(store, kinds, behind, size - 1 - COROUTINE_WORDS)
}
