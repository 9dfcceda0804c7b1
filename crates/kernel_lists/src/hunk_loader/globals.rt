// The globals that a module sets.
ghost use Rattle.std.specs.Prelude.{◌≡◌, ◌≤◌, ◌<◌, ◌+◌, ◌↔◌, IsTrue, length, slice_range, true};
ghost use Rattle.kernel_lists.specs.LinkedList.Places.{has};
ghost use Rattle.kernel_lists.specs.TaskBlock.Lists.{modules_in};
ghost use Rattle.kernel_lists.specs.HunkLoader.Globals.{GlobalsFit, global_of_number, globals_in, globals_of_hunk, highest, with_globals};
ghost use Rattle.kernel_lists.specs.HunkLoader.GlobalWords.{AreClear};
ghost use Rattle.kernel_lists.specs.HunkLoader.Modules.{HasModules};
ghost use Rattle.kernel_lists.specs.HunkLoader.ModuleHunks.{module_end, placed};

use word_store::{Store, add, mul, set_word_at, word_at};

/// The highest number of a global.
pub const MOST_GLOBALS: u32 = 1000;

/// Whether no hunk of the module at m has a last word above 1,000. A hunk without words has none.
pub fn globals_fit(store: &Store, m: u32) -> bool
    requires modules { HasModules store.now }
    requires listed { has m (modules_in store.now) ≡ true }
    ensures { IsTrue result ↔ GlobalsFit store.now m }
{
    let count = word_at(store, m, 1);
    let lengths = store.address_of(m, 2);
    let mut base = store.address_of(lengths, count);
    for i in 0..count {
        let length = word_at(store, lengths, i);
        if highest(store, base, length) > MOST_GLOBALS {
            return false;
        }
        base = store.address_of(base, length);
    }
    true
}

// The last word of the hunk at the base, or 0 where it has none.
fn highest(store: &Store, base: u32, count: u32) -> u32
    requires { base + count ≤ length store.now }
    ensures { result ≡ highest (slice_range store.now base (base + count)) }
{
    if count == 0 {
        return 0;
    }
    word_at(store, base, count - 1)
}

/// Sets the globals of the module at m in the words from g on, the hunks in their order. A hunk's last word is the highest
/// number that it has; where that is 0, or there are no words, it sets none. Before it are pairs of a number and a byte
/// offset, read from the last one towards the front, up to an offset 0 or the hunk's begin. A pair with a number from 1 to
/// 1,000 sets the word at g plus the number to 4 times the hunk's address plus the offset. Other pairs are passed over.
pub fn init_globals(store: &mut Store, m: u32, g: u32)
    requires modules { HasModules store.old }
    requires listed { has m (modules_in store.old) ≡ true }
    requires clear { AreClear g m (module_end store.old m) }
    ensures { store.new ≡ with_globals store.old g (globals_in store.old m) }
{
    let count = word_at(store, m, 1);
    let lengths = store.address_of(m, 2);
    let mut base = store.address_of(lengths, count);
    for i in 0..count {
        let length = word_at(store, lengths, i);
        init_hunk(store, base, length, g);
        base = store.address_of(base, length);
    }
}

// Sets the globals of the hunk at the base.
fn init_hunk(store: &mut Store, base: u32, count: u32, g: u32)
    requires hunk { base + count ≤ length store.old }
    requires clear { AreClear g base (base + count) }
    ensures { store.new ≡ with_globals store.old g
        (globals_of_hunk (placed base (slice_range store.old base (base + count)))) }
{
    if highest(store, base, count) == 0 {
        return;
    }
    // the pairs that are left have so many words
    let mut left = count - 1;
    while left >= 2 {
        let offset = word_at(store, base, left - 1);
        if offset == 0 {
            return;
        }
        let number = word_at(store, base, left - 2);
        init_global(store, g, number, add(mul(4, base), offset));
        left -= 2;
    }
}

// Sets a global, where the number is that of one.
fn init_global(store: &mut Store, g: u32, number: u32, value: u32)
    ensures { store.new ≡ with_globals store.old g (global_of_number number value) }
{
    if (1..=MOST_GLOBALS).contains(&number) {
        set_word_at(store, g, number, value);
    }
}
