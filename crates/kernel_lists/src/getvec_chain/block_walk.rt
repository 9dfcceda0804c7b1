// The blocks of a store, in rising order.
ghost use Rattle.std.specs.Iterator.{YieldsFirst, item_count};

use crate::getvec_chain::pieces::Block;
use std::marker::Model;

/// The blocks that are left.
#[derive(Drop)]
pub struct Blocks<'a> {
    /// The words of the store.
    pub(crate) words: &'a [u32],
    /// The address of the next block, in words.
    pub(crate) at: u32,
    /// The address at which the blocks end.
    pub(crate) end: u32,
}

impl<'a> Model for Blocks<'a> {
    ghost use Rattle.std.specs.Prelude.{◌≡◌, ◌+◌, List, length};
    ghost use Rattle.kernel_lists.specs.declared.getvec_chain.pieces.Block.{Block};
    ghost use Rattle.kernel_lists.specs.GetvecChain.Tiling.{IsTiledFrom, blocks_from};

    ghost Value = { List Block };

    ghost view = { λ it. blocks_from it.words.now it.at };

    // the words from the iterator's place on tile, up to the end word
    ghost invariant = { λ it. IsTiledFrom it.words.now it.at × (it.end + 2 ≡ length it.words.now) };
}

impl Iterator for Blocks<'_> {
    type Item = Block;

    ghost next_gives = { YieldsFirst (λ rest. rest) };

    ghost remaining = { item_count (λ rest. rest) };

    fn next(&mut self) -> Option<Block> {
        if self.at == self.end {
            return None;
        }
        let block = Block::of_word(self.at, self.words[self.at as usize]);
        self.at = block.end();
        Some(block)
    }
}
