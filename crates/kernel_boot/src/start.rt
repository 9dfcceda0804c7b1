// A kernel without tasks, modules and packets.
ghost use Rattle.std.specs.Prelude.{◌≡◌, IsTrue, [], length, replicate};
ghost use Rattle.kernel_lists.specs.OwnedWords.Owned.{written};
ghost use Rattle.kernel_model.specs.KernelRecord.Ranges.{IsVersion, is_period, is_store_size};
ghost use Rattle.kernel_model.specs.KernelRecord.ChangedStore.{IsChanged};
ghost use Rattle.kernel_model.specs.KernelRecord.Versions.{highest_id_of};
ghost use Rattle.kernel_boot.specs.Private.BootWords.{root_pairs};
ghost use Rattle.kernel_boot.specs.EmptyKernel.{empty_lists};

use kernel_lists::{FIRST_BLOCK, RootField, TABLE, make, set_root};
use word_store::Store;

/// Makes a kernel in a store of zeros: the root node, the task table, and one free block of all words from 200 up to the end
/// word. Its clock ticks each `period` steps. All other words stay 0.
pub fn make_kernel(store: &mut Store, version: u32, period: u32)
    requires zeros { store.old ≡ replicate (length store.old) 0 }
    requires version { IsVersion version }
    requires size { IsTrue (is_store_size version (length store.old)) }
    requires period { IsTrue (is_period period) }
    ensures { IsChanged store.old store.new (empty_lists version period (length store.old)) [] }
{
    write_root(store, version, period);
    make(store);
}

/// Writes the words of the root that each kernel has.
pub(crate) fn write_root(store: &mut Store, version: u32, period: u32)
    ensures { store.new ≡ written (root_pairs (length store.old) version period) store.old }
{
    let words = store.size();
    set_root(store, RootField::Table, TABLE);
    set_root(store, RootField::FirstBlock, FIRST_BLOCK);
    set_root(store, RootField::Size, words);
    set_root(store, RootField::Period, period);
    set_root(store, RootField::Version, version);
    store.set(TABLE, highest_id(version));
}

// The highest number of a task.
fn highest_id(version: u32) -> u32
    ensures { result ≡ highest_id_of version }
{
    if version == 2 { 63 } else { 20 }
}
