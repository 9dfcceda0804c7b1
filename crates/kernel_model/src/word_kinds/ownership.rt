// Whether words are the kernel's, by what a keeper of kinds knows.
ghost use Rattle.std.specs.Prelude.{◌+◌, ◌↔◌, IsTrue};
ghost use Rattle.kernel_model.specs.KernelRecord.Changes.{AreUnowned};
ghost use Rattle.kernel_model.specs.KernelRecord.Lists.{Lists};
ghost use Rattle.kernel_model.specs.KernelRecord.ChangedStore.{HasKeeper};

use crate::word_kinds::{KindKeeper, clear};
use word_store::Store;

/// Whether the kernel owns none of the n words from a on.
pub fn are_unowned<Q: KindKeeper>(store: &Store, kinds: &Q, a: u32, n: u32) -> bool
    requires { (l : Lists) × HasKeeper store.now (Q.tells kinds.now) (Q.room kinds.now) l }
    ensures { (l : Lists) → HasKeeper store.now (Q.tells kinds.now) (Q.room kinds.now) l
        → IsTrue result ↔ AreUnowned l a (a + n) }
{
    clear(kinds, store, a, n)
}
