// The words of the root.
ghost use Rattle.std.specs.Prelude.{◌≡◌, ◌↔◌, ◌+◌, ◌<◌, ◌≤◌, ℕ, IsTrue, slice_index};
ghost use Rattle.kernel_model.specs.KernelRecord.Versions.{highest_id_of};
ghost use Rattle.store_claims.specs.AdoptionLaw.Passes.{IsValidRoot};
ghost use Rattle.kernel_check.specs.ListPasses.Private.RootRules.{HasRootWords, NumbersMayBe};

use kernel_lists::{RootField, root};
use word_store::{Store, word};

/// Whether the numbers of the root are those that a session may name, and its fixed words are right. It looks at some 80 words.
pub fn is_valid_root(store: &Store) -> bool
    ensures { IsTrue result ↔ IsValidRoot store.now }
{
    if !numbers_may_be(store) {
        return false;
    }
    has_root_words(store)
}

// Whether the size, the period and the version are those that a session may name.
fn numbers_may_be(store: &Store) -> bool
    ensures { IsTrue result ↔ NumbersMayBe store.now }
{
    let version = root(store, RootField::Version);
    let size = root(store, RootField::Size);
    let period = root(store, RootField::Period);
    if size != store.size() || version < 1 || version > 2 {
        return false;
    }
    if size < 1024 || size % 2 != 0 || period < 1 || period > 1_000_000 {
        return false;
    }
    if version == 1 {
        return size <= 262_144;
    }
    size <= 4_194_304
}

// Whether the fixed words of the root are right, in a store whose numbers may be.
fn has_root_words(store: &Store) -> bool
    requires { NumbersMayBe store.now }
    ensures { IsTrue result ↔ HasRootWords store.now }
{
    if root(store, RootField::Table) != 120 || root(store, RootField::FirstBlock) != 200 {
        return false;
    }
    let residents = root(store, RootField::Residents);
    if residents != 0 && residents != 201 {
        return false;
    }
    let highest = highest_id_of(root(store, RootField::Version));
    if word(store, 120) != highest || word(store, store.size() - 2) != 0 {
        return false;
    }
    if !are_zeros(store, 113, 7) {
        return false;
    }
    are_zeros(store, 121 + highest, 63 - highest)
}

// The highest number of a task, by the version.
fn highest_id_of(version: u32) -> u32
    ensures value { result ≡ highest_id_of version }
    ensures most { result ≤ 63 }
{
    if version == 2 { 63 } else { 20 }
}

// Whether the n words from a on are 0.
fn are_zeros(store: &Store, a: u32, n: u32) -> bool
    requires { a + n ≤ 184 }
    ensures { IsTrue result ↔ ((i : ℕ) → i < n → slice_index store.now (a + i) ≡ 0) }
{
    for i in 0..n {
        if word(store, a + i) != 0 {
            return false;
        }
    }
    true
}
