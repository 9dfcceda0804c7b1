// The modules of a store whose words were claimed.
ghost use Rattle.std.specs.Prelude.{◌≡◌, ◌↔◌, ◌≤◌, ◌^◌, ◌*◌, IsTrue, length, sum};
ghost use Rattle.kernel_lists.specs.GetvecChain.Tiling.{IsTiled, blocks_in};
ghost use Rattle.kernel_model.specs.KernelRecord.KernelRanges.{IsModuleIn};
ghost use Rattle.kernel_model.specs.KernelRecord.Recovered.{lists_in, module_in};
ghost use Rattle.kernel_model.specs.KernelRecord.ValidBlocks.{AreValidModules, HasBlock, last_module_word};
ghost use Rattle.kernel_check.specs.ListPasses.ClaimedStore.{IsClaimed};
ghost use Rattle.kernel_check.specs.ListPasses.StartMarks.{OpensStarts};

use crate::list_passes::starts::has_block;
use kernel_lists::modules;
use store_claims::Claims;
use word_store::{Store, word_at};

/// Whether each module has a block of its size. It looks once at the size word of the block, and at each length.
pub fn are_valid_modules(store: &Store, starts: &Claims) -> bool
    requires claimed { IsClaimed store.now }
    requires starts { OpensStarts store.now starts.now }
    ensures { IsTrue result ↔ AreValidModules (lists_in store.now) }
{
    for m in modules(store) {
        if !is_valid_module(store, starts, m) {
            return false;
        }
    }
    true
}

// The same of the module at m.
fn is_valid_module(store: &Store, starts: &Claims, m: u32) -> bool
    requires tiled { IsTiled store.now }
    requires starts { OpensStarts store.now starts.now }
    requires inside { IsModuleIn store.now m }
    ensures { IsTrue result ↔
        HasBlock (blocks_in store.now) m (last_module_word (module_in store.now m)) }
{
    let count = word_at(store, m, 1);
    let Some(lengths) = store.words(store.address_of(m, 2), count) else {
        return false;
    };
    has_block(store, starts, m, 1 + u64::from(count) + sum_of(lengths))
}

// The sum of these words, of which there are fewer than 2 ^ 32.
fn sum_of(words: &[u32]) -> u64
    requires { length words.now ≤ 4294967295 }
    ensures value { result ≡ sum words.now }
    ensures most { result ≤ 4294967295 * length words.now }
{
    let mut total = 0;
    for w in words {
        total += u64::from(*w);
    }
    total
}
