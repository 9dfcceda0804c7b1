// Blocks are made, taken and given back.
ghost use Rattle.std.specs.Prelude.{◌≡◌, ◌+◌, ◌%◌, ◌<◌, ◌≤◌, [], ◌∷◌, IfOk, IsSome, None, OnErr, OnOk, Some, length};
ghost use Rattle.kernel_lists.specs.GetvecChain.Give.{given, given_store};
ghost use Rattle.kernel_lists.specs.GetvecChain.Make.{made_store, whole_block};
ghost use Rattle.kernel_lists.specs.GetvecChain.Run.{first_run, need};
ghost use Rattle.kernel_lists.specs.GetvecChain.Take.{IsTaken, taken, taken_store};
ghost use Rattle.kernel_lists.specs.GetvecChain.Tiling.{IsTiled, blocks_in, used_at};

use crate::getvec_chain::pieces::{Block, FIRST_BLOCK, Run};
use crate::getvec_chain::search::{first_run, used_at, words_needed};
use word_store::Store;

/// No run of free blocks is large enough.
#[derive(Clone, Copy)]
pub struct NoRoom;

/// No used block has its data there.
#[derive(Clone, Copy)]
pub struct NotABlock;

/// Makes one free block of all words from 200 up to the end word.
pub fn make(store: &mut Store)
    requires even { length store.old % 2 ≡ 0 }
    requires large { 1024 ≤ length store.old }
    ensures words { store.new ≡ made_store store.old }
    ensures blocks { blocks_in store.new ≡ whole_block store.old ∷ [] }
    ensures tiled { IsTiled store.new }
{
    let end = store.size() - 2;
    store.set(FIRST_BLOCK, end - FIRST_BLOCK + 1);
    store.set(end, 0);
}

/// Takes a block with the data words 0 to u from the first run that is large enough. The answer is the address of its
/// data.
pub fn take(store: &mut Store, u: u32) -> Result<u32, NoRoom>
    requires { IsTiled store.old }
    ensures taken { IfOk result (λ v. IsTaken store.old store.new u v) }
    ensures blocks { OnOk result (blocks_in store.new ≡ taken (need u) (blocks_in store.old)) }
    ensures tiled { IsTiled store.new }
    ensures no_room { OnErr result (first_run (need u) (blocks_in store.old) ≡ None) }
    ensures unchanged { OnErr result (store.new ≡ store.old) }
{
    let run = first_run(store, u).ok_or(NoRoom)?;
    Ok(take_from(store, run, u))
}

/// Takes a block with the data words 0 to u from the front of the run, which is the first that is large enough. The answer
/// is the address of its data.
pub fn take_from(store: &mut Store, run: Run, u: u32) -> u32
    requires tiled { IsTiled store.old }
    requires first { first_run (need u) (blocks_in store.old) ≡ Some run }
    ensures taken { IsTaken store.old store.new u result }
    ensures blocks { blocks_in store.new ≡ taken (need u) (blocks_in store.old) }
    ensures tiled { IsTiled store.new }
{
    split(store, run, words_needed(u) as u32);
    run.start + 1
}

// A used block of that size is at the front of the run, and one free block of the rest, where there is any.
fn split(store: &mut Store, run: Run, size: u32)
    requires some { 0 < size }
    requires fits { run.start + size ≤ run.end }
    ensures { store.new ≡ taken_store store.old run size }
{
    let rest = run.end - (run.start + size);
    store.set(run.start, size);
    if rest > 0 {
        store.set(run.start + size, rest + 1);
    }
}

/// Gives the used block back whose data begin at address v.
pub fn give(store: &mut Store, v: u32) -> Result<(), NotABlock>
    requires { IsTiled store.old }
    ensures used { OnOk result (IsSome (used_at v (blocks_in store.old))) }
    ensures words { OnOk result (store.new ≡ given_store store.old v) }
    ensures blocks { OnOk result (blocks_in store.new ≡ given v (blocks_in store.old)) }
    ensures tiled { IsTiled store.new }
    ensures not_a_block { OnErr result (used_at v (blocks_in store.old) ≡ None) }
    ensures unchanged { OnErr result (store.new ≡ store.old) }
{
    let block = used_at(store, v).ok_or(NotABlock)?;
    give_block(store, block);
    Ok(())
}

/// Gives a used block back.
pub fn give_block(store: &mut Store, block: Block)
    requires tiled { IsTiled store.old }
    requires used { used_at (block.start + 1) (blocks_in store.old) ≡ Some block }
    ensures words { store.new ≡ given_store store.old (block.start + 1) }
    ensures blocks { blocks_in store.new ≡ given (block.start + 1) (blocks_in store.old) }
    ensures tiled { IsTiled store.new }
{
    store.set(block.start, block.size + 1);
}
