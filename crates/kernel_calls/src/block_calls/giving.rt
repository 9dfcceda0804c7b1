// A block is given back.
ghost use Rattle.kernel_model.specs.KernelRecord.Lists.{Lists};
ghost use Rattle.kernel_calls.specs.CallAnswers.CallChange.{IsMade, plain_answer};
ghost use Rattle.kernel_calls.specs.BlockCalls.Freevec.{freevec};
ghost use Rattle.kernel_model.specs.KernelRecord.ChangedStore.{HasKeeper};

use crate::block_calls::uses::users_block;
use crate::call_answers::codes::PACKET_INSIDE;
use kernel_lists::give_block;
use kernel_model::{KindKeeper, are_unowned};
use word_store::Store;

/// Gives the block back whose data begin at address v; at 0 there is nothing to do. Refused where no used block of a user
/// has its data there (6), as blocks of tasks, modules, coroutines and the residents are none, and where a word of a queued
/// packet lies in it (7).
pub fn freevec<Q: KindKeeper>(store: &mut Store, kinds: &Q, v: u32) -> Result<(), u32>
    requires { (l : Lists) × HasKeeper store.old (Q.tells kinds.now) (Q.room kinds.now) l }
    ensures made { (l : Lists)
        → HasKeeper store.old (Q.tells kinds.now) (Q.room kinds.now) l
        → IsMade store.old store.new (Q.tells kinds.now) (plain_answer result) (freevec l v) }
{
    if v == 0 {
        return Ok(());
    }
    let block = users_block(store, v)?;
    if !are_unowned(store, kinds, v, block.size - 1) {
        return Err(PACKET_INSIDE);
    }
    give_block(store, block);
    Ok(())
}
