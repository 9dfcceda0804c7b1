// What is where among the blocks of a store.
ghost use Rattle.std.specs.Prelude.{◌≡◌, ◌^◌, ◌<◌, length};
ghost use Rattle.kernel_lists.specs.GetvecChain.Run.{first_run, need};
ghost use Rattle.kernel_lists.specs.GetvecChain.Tiling.{IsTiled, IsTiledFrom, blocks_from, blocks_in, holding, used_at};

use crate::getvec_chain::block_walk::Blocks;
use crate::getvec_chain::pieces::{Block, FIRST_BLOCK, Run};
use word_store::Store;

/// The blocks of the store, in rising order.
pub fn blocks(store: &Store) -> Blocks<'_>
    requires { IsTiled store.now }
    ensures blocks { result ≡ blocks_in store.now }
    ensures addresses { length store.now < 2 ^ 32 }
{
    blocks_from(store, FIRST_BLOCK)
}

/// The blocks of the store from the address of one of them on, in rising order.
pub fn blocks_from(store: &Store, at: u32) -> Blocks<'_>
    requires { IsTiledFrom store.now at }
    ensures blocks { result ≡ blocks_from store.now at }
    ensures addresses { length store.now < 2 ^ 32 }
{
    Blocks {
        words: all_words(store),
        at,
        end: store.size() - 2,
    }
}

// All words of the store, lent.
fn all_words(store: &Store) -> &[u32]
    ensures { result.now ≡ store.now }
{
    let Some(words) = store.words(0, store.size()) else {
        unreachable!()
    };
    words
}

/// The block whose data hold the word at address a.
pub fn block_of(store: &Store, a: u32) -> Option<Block>
    requires { IsTiled store.now }
    ensures { result ≡ holding a (blocks_in store.now) }
{
    for block in blocks(store) {
        if a < block.end() {
            return if block.has_data(a) { Some(block) } else { None };
        }
    }
    None
}

/// The used block whose data begin at address v.
pub(crate) fn used_at(store: &Store, v: u32) -> Option<Block>
    requires { IsTiled store.now }
    ensures { result ≡ used_at v (blocks_in store.now) }
{
    blocks(store).find(|block| block.is_used_at(v))
}

/// The whole run that a block with the data words 0 to u would be taken from.
pub fn first_run(store: &Store, u: u32) -> Option<Run>
    requires { IsTiled store.now }
    ensures { result ≡ first_run (need u) (blocks_in store.now) }
{
    let need = words_needed(u);
    // where the free blocks begin that were passed last
    let mut start = FIRST_BLOCK;
    for block in blocks(store) {
        if block.free {
            continue;
        }
        if need <= u64::from(block.start - start) {
            let end = block.start;
            return Some(Run { start, end });
        }
        start = block.end();
    }
    let end = store.size() - 2;
    if need <= u64::from(end - start) {
        return Some(Run { start, end });
    }
    None
}

/// The size of a block with the data words 0 to u.
pub(crate) fn words_needed(u: u32) -> u64
    ensures { result ≡ need u }
{
    (u64::from(u) + 3) / 2 * 2
}
