// The coroutines of each task, and those that are active.
ghost use Rattle.std.specs.Prelude.{◌≡◌, ◌↔◌, ◌+◌, ◌==◌, ℕ, IsTrue, true, length, not, slice_index};
ghost use Rattle.std.specs.Bool.{OnTrue};
ghost use Rattle.std.specs.List.{AllByRecursion};
ghost use Rattle.kernel_lists.specs.LinkedList.Places.{has};
ghost use Rattle.kernel_lists.specs.GetvecChain.Tiling.{IsTiled};
ghost use Rattle.kernel_lists.specs.TaskBlock.Lists.{coroutines_in};
ghost use Rattle.kernel_lists.specs.TaskBlock.TaskChain.{tasks_in};
ghost use Rattle.kernel_lists.specs.Coroutines.Active.{active_in};
ghost use Rattle.kernel_model.specs.KernelRecord.Recovered.{coroutine_in, lists_in};
ghost use Rattle.kernel_model.specs.KernelRecord.ValidTasks.{IsCoroutine};
ghost use Rattle.store_claims.specs.WordClaims.Marks.{is_open};
ghost use Rattle.kernel_check.specs.ListPasses.ClaimedStore.{IsClaimed};
ghost use Rattle.kernel_check.specs.ListPasses.StartMarks.{IsShut, OpensMembers, OpensStarts};
ghost use Rattle.kernel_check.specs.ListPasses.Private.CanPass.{CanPass};
ghost use Rattle.kernel_check.specs.ListPasses.Frames.{OwnsCoroutines, TellsParent};

use crate::list_passes::starts::has_block;
use kernel_lists::{coroutine_list, tasks};
use store_claims::{Claims, PARENT, claim_active};
use word_store::{Store, word_at};

/// Which word of a coroutine has its highest index.
const HIGHEST: u32 = 4;

/// Whether each coroutine has a block of its size, and the active ones of each task are distinct coroutines of the task, and these
/// alone have parents. Of each task the coroutines are opened, the active ones claimed one by one, and the rest shut again: so it
/// takes a few looks at each coroutine.
pub fn are_valid_coroutines(store: &Store, starts: &Claims, own: &mut Claims) -> bool
    requires claimed { IsClaimed store.now }
    requires starts { OpensStarts store.now starts.now }
    requires shut { IsShut store.now own.old }
    ensures { IsTrue result ↔ AllByRecursion (OwnsCoroutines store.now) (tasks_in store.now) }
{
    for t in tasks(store) {
        if !are_valid_own_coroutines(store, starts, own, t) {
            return false;
        }
    }
    true
}

// The same of the task at t.
fn are_valid_own_coroutines(store: &Store, starts: &Claims, own: &mut Claims, t: u32) -> bool
    requires tiled { IsTiled store.now }
    requires starts { OpensStarts store.now starts.now }
    requires shut { IsShut store.now own.old }
    requires can { CanPass store.now t }
    ensures answer { IsTrue result ↔ OwnsCoroutines store.now t }
    ensures shut { OnTrue result (IsShut store.now own.new) }
{
    if !are_valid_bodies(store, starts, t) {
        return false;
    }
    open_coroutines(store, own, t);
    if !claim_active(store, own, t) {
        return false;
    }
    if !parents_tell(store, own, t) {
        return false;
    }
    shut_coroutines(store, own, t);
    true
}

// Whether each of its coroutines has a block of its size.
fn are_valid_bodies(store: &Store, starts: &Claims, t: u32) -> bool
    requires tiled { IsTiled store.now }
    requires starts { OpensStarts store.now starts.now }
    requires can { CanPass store.now t }
    ensures { IsTrue result ↔ AllByRecursion
        (λ c. IsCoroutine (lists_in store.now) (coroutine_in store.now c)) (coroutines_in store.now t) }
{
    for c in coroutine_list(store, t) {
        if !is_valid_body(store, starts, c) {
            return false;
        }
    }
    true
}

// The same of the coroutine at c.
fn is_valid_body(store: &Store, starts: &Claims, c: u32) -> bool
    requires tiled { IsTiled store.now }
    requires starts { OpensStarts store.now starts.now }
    ensures { IsTrue result ↔ IsCoroutine (lists_in store.now) (coroutine_in store.now c) }
{
    let highest = word_at(store, c, HIGHEST);
    if highest < 16 {
        return false;
    }
    has_block(store, starts, c, u64::from(highest))
}

// Opens the first word of each coroutine of the task.
fn open_coroutines(store: &Store, own: &mut Claims, t: u32)
    requires shut { IsShut store.now own.old }
    requires can { CanPass store.now t }
    ensures { OpensMembers store.now (coroutines_in store.now t) own.new }
{
    for c in coroutine_list(store, t) {
        own.open(c, 1);
    }
}

// Whether each coroutine has a parent exactly where it is active: those that are not active are open.
fn parents_tell(store: &Store, own: &Claims, t: u32) -> bool
    requires can { CanPass store.now t }
    requires idle { AllByRecursion (λ c. is_open own.now c ≡ not (has c (active_in store.now t)))
        (coroutines_in store.now t) }
    ensures { IsTrue result ↔ AllByRecursion (TellsParent store.now t) (coroutines_in store.now t) }
{
    for c in coroutine_list(store, t) {
        if !parent_tells(store, own, c) {
            return false;
        }
    }
    true
}

// Whether the coroutine at c has no parent exactly where it is open.
fn parent_tells(store: &Store, own: &Claims, c: u32) -> bool
    ensures { IsTrue result ↔ ((slice_index store.now (c + 1) == 0) ≡ is_open own.now c) }
{
    if word_at(store, c, PARENT) == 0 {
        return own.is_open(c);
    }
    !own.is_open(c)
}

// Shuts the first word of each again. No others are open.
fn shut_coroutines(store: &Store, own: &mut Claims, t: u32)
    requires can { CanPass store.now t }
    requires size { length own.old ≡ length store.now }
    requires only { (a : ℕ) → is_open own.old a ≡ true → has a (coroutines_in store.now t) ≡ true }
    ensures { IsShut store.now own.new }
{
    for c in coroutine_list(store, t) {
        let _was_open = own.claim(c, 1);
    }
}
