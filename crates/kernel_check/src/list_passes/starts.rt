// Marks that answer in one look whether a used block or a module begins at an address.
ghost use Rattle.std.specs.Prelude.{◌↔◌, ◌+◌, ◌<◌, ◌^◌, IsTrue};
ghost use Rattle.kernel_lists.specs.GetvecChain.Tiling.{IsTiled, blocks_in};
ghost use Rattle.kernel_lists.specs.TaskBlock.Lists.{modules_in};
ghost use Rattle.kernel_model.specs.KernelRecord.ValidBlocks.{HasBlock};
ghost use Rattle.kernel_check.specs.ListPasses.ClaimedStore.{IsClaimed};
ghost use Rattle.kernel_check.specs.ListPasses.StartMarks.{IsShut, OpensMembers, OpensStarts};

use kernel_lists::{blocks, modules};
use store_claims::Claims;
use word_store::{Store, word};

/// Opens the first words of used blocks.
pub fn open_starts(store: &Store, starts: &mut Claims)
    requires tiled { IsTiled store.now }
    requires shut { IsShut store.now starts.old }
    ensures { OpensStarts store.now starts.new }
{
    for block in blocks(store) {
        if !block.free {
            starts.open(block.start, 1);
        }
    }
}

/// Opens the first words of modules.
pub fn open_modules(store: &Store, marks: &mut Claims)
    requires claimed { IsClaimed store.now }
    requires shut { IsShut store.now marks.old }
    ensures { OpensMembers store.now (modules_in store.now) marks.new }
{
    for m in modules(store) {
        marks.open(m, 1);
    }
}

/// Whether at v begin the data of a used block with room for the words 0 to u, and no more.
pub(crate) fn has_block(store: &Store, starts: &Claims, v: u32, u: u64) -> bool
    requires tiled { IsTiled store.now }
    requires starts { OpensStarts store.now starts.now }
    requires small { u + 3 < 2 ^ 64 }
    ensures { IsTrue result ↔ HasBlock (blocks_in store.now) v u }
{
    let Some(start) = v.checked_sub(1) else {
        return false;
    };
    if !starts.is_open(start) {
        return false;
    }
    u64::from(word(store, start)) == (u + 3) / 2 * 2
}
