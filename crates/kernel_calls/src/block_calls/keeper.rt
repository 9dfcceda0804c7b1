// A keeper of kinds is told which words will be the kernel's once a block was taken.
ghost use Rattle.std.specs.Prelude.{◌≡◌, ◌≤◌, IfErr, IfOk, None, OnErr, OnOk, Some};
ghost use Rattle.kernel_lists.specs.GetvecChain.Run.{first_run, need};
ghost use Rattle.kernel_lists.specs.GetvecChain.Tiling.{IsTiledFrom, blocks_from, blocks_in};
ghost use Rattle.kernel_model.specs.KernelRecord.ChangedStore.{HasKeeper, Knows};
ghost use Rattle.kernel_model.specs.KernelRecord.Lists.{Lists};
ghost use Rattle.kernel_calls.specs.BlockCalls.FreeStore.{with_taken};
ghost use Rattle.kernel_model.specs.WordKinds.Private.ToldWords.{WasClaimed, WasReleased};
ghost use Rattle.kernel_calls.specs.BlockCalls.Private.JoinedStarts.{is_joined, joined_start, joined_starts, rest_start};

use crate::call_answers::codes::NO_ROOM;
use kernel_lists::{Block, Run, blocks_from, first_run};
use kernel_model::KindKeeper;
use word_store::Store;

/// Tells the keeper what the words of a take will be: of the run from which a block with the data words 0 to u will be
/// taken, all size words but the first are plain then, and the one of the rest, where there is any, is the kernel's. No word
/// of the store changes. The answer is that run. Refused where no run is large enough (1).
pub fn tell_take<Q: KindKeeper>(store: &Store, kinds: &mut Q, u: u32) -> Result<Run, u32>
    requires { (l : Lists) × HasKeeper store.now (Q.tells kinds.old) (Q.room kinds.old) l }
    ensures knows { (l : Lists)
        → HasKeeper store.now (Q.tells kinds.old) (Q.room kinds.old) l
        → OnOk result (Knows (Q.tells kinds.new) (with_taken u l)) }
    ensures first { IfOk result (λ run. first_run (need u) (blocks_in store.now) ≡ Some run) }
    ensures no_room { OnErr result (first_run (need u) (blocks_in store.now) ≡ None) }
    ensures code { IfErr result (λ code. code ≡ 1) }
    ensures unchanged { OnErr result (kinds.new ≡ kinds.old) }
    ensures room { Q.room kinds.new ≡ Q.room kinds.old }
{
    let run = first_run(store, u).ok_or(NO_ROOM)?;
    let rest = run.start + (u + 3) / 2 * 2;
    release_joined(store, kinds, run);
    claim_rest(kinds, rest, run.end);
    Ok(run)
}

// Releases the size words in the run, but for the first.
fn release_joined<Q: KindKeeper>(store: &Store, kinds: &mut Q, run: Run)
    requires { IsTiledFrom store.now run.start }
    ensures released { WasReleased (Q.tells kinds.old) (Q.tells kinds.new)
        (joined_starts run (blocks_from store.now run.start)) }
    ensures room { Q.room kinds.new ≡ Q.room kinds.old }
{
    for block in blocks_from(store, run.start) {
        if block.start >= run.end {
            return;
        }
        release_start(kinds, run, block);
    }
}

// Releases the size word of a block, where it lies in the run and is not its first word.
fn release_start<Q: KindKeeper>(kinds: &mut Q, run: Run, block: Block)
    ensures released { WasReleased (Q.tells kinds.old) (Q.tells kinds.new)
        (joined_start run block) }
    ensures room { Q.room kinds.new ≡ Q.room kinds.old }
{
    if !is_joined(run, block) {
        return;
    }
    kinds.release(block.start, 1);
}

fn is_joined(run: Run, block: Block) -> bool
    ensures { result ≡ is_joined run block }
{
    run.start < block.start && block.start < run.end
}

// Claims the size word of the rest of a run, where there is any.
fn claim_rest<Q: KindKeeper>(kinds: &mut Q, rest: u32, end: u32)
    requires { end ≤ Q.room kinds.old }
    ensures claimed { WasClaimed (Q.tells kinds.old) (Q.tells kinds.new) (rest_start rest end) }
    ensures room { Q.room kinds.new ≡ Q.room kinds.old }
{
    if rest >= end {
        return;
    }
    kinds.claim(rest, 1);
}
