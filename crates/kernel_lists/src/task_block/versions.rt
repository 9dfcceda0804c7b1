// What the version of the layout says: how many tasks there may be, the words of a task block, and its modules.
ghost use Rattle.std.specs.Prelude.{◌≡◌, ◌+◌, ◌<◌, ◌≤◌, slice_index, slice_set};
ghost use Rattle.kernel_lists.specs.TaskBlock.Versions.{head_words, highest_id, module_index, most_modules};

use crate::task_block::roots::{RootField, root};
use crate::task_block::search::TABLE;
use word_store::{Store, set_word_at, word, word_at};

/// The highest number that a task may have, which word 120 holds: 20, or 63 in version 2.
pub fn highest_id(store: &Store) -> u32
    ensures { result ≡ highest_id store.now }
{
    word(store, TABLE)
}

/// The number of words of a guest's task block: 23, or 30 in version 2.
pub fn head_words(store: &Store) -> u32
    ensures { result ≡ head_words store.now }
{
    if root(store, RootField::Version) == 2 {
        30
    } else {
        23
    }
}

/// The most modules that a task may have: 1, or 8 in version 2.
pub fn most_modules(store: &Store) -> u32
    ensures { result ≡ most_modules store.now }
{
    if root(store, RootField::Version) == 2 {
        8
    } else {
        1
    }
}

/// The i-th module of the task at t, from 1, or 0 where the task has fewer. It is in word 10 of the task block, and from
/// the second on in word 21 + i.
pub fn module_at(store: &Store, t: u32, i: u32) -> u32
    requires number { 1 ≤ i }
    requires most { i ≤ most_modules store.now }
    ensures { result ≡ slice_index store.now (t + module_index i) }
{
    word_at(store, t, module_index(i))
}

/// Sets the word that has the i-th module of the task at t, from 1, and no other.
pub fn set_module_at(store: &mut Store, t: u32, i: u32, w: u32)
    requires number { 1 ≤ i }
    requires most { i ≤ most_modules store.old }
    ensures { store.new ≡ slice_set store.old (t + module_index i) w }
{
    set_word_at(store, t, module_index(i), w);
}

// Which word of a task block has the i-th module.
fn module_index(i: u32) -> u32
    requires { i < 100 }
    ensures { result ≡ module_index i }
{
    if i == 1 { 10 } else { 21 + i }
}
