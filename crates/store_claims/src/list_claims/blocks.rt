// The blocks of a store that may have any words.
ghost use Rattle.std.specs.Prelude.{◌≡◌, ◌↔◌, ◌<◌, ℕ, IsTrue, false, length};
ghost use Rattle.kernel_lists.specs.GetvecChain.Tiling.{IsTiled, blocks_in};
ghost use Rattle.store_claims.specs.WordClaims.Marks.{is_open};
ghost use Rattle.store_claims.specs.ListClaims.BlockData.{is_used_data};

use crate::word_claims::Claims;
use kernel_lists::{Block, FIRST_BLOCK, blocks};
use word_store::{Store, word};

/// Whether the words from 200 on are blocks: they follow one another, with even sizes of 2 words or more, up to the end word,
/// which is 0. It looks once at each block.
pub fn are_tiled(store: &Store) -> bool
    ensures { IsTrue result ↔ IsTiled store.now }
{
    let size = store.size();
    if size < FIRST_BLOCK + 2 {
        return false;
    }
    let end = size - 2;
    let mut at = FIRST_BLOCK;
    while at < end {
        let block = Block::of_word(at, word(store, at));
        if block.size < 2 || block.size > end - at {
            return false;
        }
        at = block.end();
    }
    word(store, end) == 0
}

/// Opens the data of the used blocks, where no word is open. So no open word is one of the root, a size word, a word of a free
/// block, or the end word.
pub fn open_blocks(store: &Store, claims: &mut Claims)
    requires tiled { IsTiled store.now }
    requires room { length claims.old ≡ length store.now }
    requires shut { (a : ℕ) → is_open claims.old a ≡ false }
    ensures size { length claims.new ≡ length claims.old }
    ensures used_data { (a : ℕ) → a < length store.now
        → is_open claims.new a ≡ is_used_data a (blocks_in store.now) }
{
    for block in blocks(store) {
        if !block.free {
            claims.open(block.start + 1, u64::from(block.size) - 1);
        }
    }
}
