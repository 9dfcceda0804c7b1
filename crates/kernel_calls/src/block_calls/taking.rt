// A block is taken.
ghost use Rattle.std.specs.Prelude.{◌≡◌};
ghost use Rattle.kernel_model.specs.KernelRecord.Lists.{Lists};
ghost use Rattle.kernel_calls.specs.CallAnswers.CallChange.{IsMade};
ghost use Rattle.kernel_calls.specs.BlockCalls.Getvec.{getvec};
ghost use Rattle.kernel_model.specs.KernelRecord.ChangedStore.{HasKeeper};

use crate::block_calls::keeper::tell_take;
use kernel_lists::take_from;
use kernel_model::KindKeeper;
use word_store::Store;

/// Takes a block with the data words 0 to u from the first run of free blocks that is large enough. The answer is the
/// address of its data. Refused where no run is large enough (1).
pub fn getvec<Q: KindKeeper>(store: &mut Store, kinds: &mut Q, u: u32) -> Result<u32, u32>
    requires { (l : Lists) × HasKeeper store.old (Q.tells kinds.old) (Q.room kinds.old) l }
    ensures made { (l : Lists)
        → HasKeeper store.old (Q.tells kinds.old) (Q.room kinds.old) l
        → IsMade store.old store.new (Q.tells kinds.new) result (getvec l u) }
    ensures room { Q.room kinds.new ≡ Q.room kinds.old }
{
    let run = tell_take(store, kinds, u)?;
    Ok(take_from(store, run, u))
}
