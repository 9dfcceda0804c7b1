// What a block is used for.
ghost use Rattle.std.specs.Prelude.{◌≡◌, ◌&&◌, ◌==◌, ◌<◌, ◌+◌, ◌^◌, slice_index, true};
ghost use Rattle.std.specs.List.{AllByRecursion, list_any};
ghost use Rattle.kernel_lists.specs.LinkedList.Places.{has};
ghost use Rattle.kernel_lists.specs.LinkedList.Walk.{CanWalk};
ghost use Rattle.kernel_lists.specs.TaskBlock.Lists.{coroutines_in};
ghost use Rattle.kernel_lists.specs.TaskBlock.RootWords.{first_task};
ghost use Rattle.kernel_lists.specs.TaskBlock.TaskChain.{task_link, tasks_in};
ghost use Rattle.kernel_model.specs.KernelRecord.BlockUse.{use_of, use_of_data};
ghost use Rattle.kernel_model.specs.KernelRecord.HoldsLists.{HoldsLists};
ghost use Rattle.kernel_model.specs.KernelRecord.KernelRanges.{CanWalkTask, has_residents};
ghost use Rattle.kernel_model.specs.KernelRecord.Lists.{Lists};
ghost use Rattle.kernel_calls.specs.BlockCalls.Freevec.{IsUsersBlock, is_user};

use crate::call_answers::codes::NO_USER_BLOCK;
use crate::call_answers::is_module;
use kernel_lists::{Block, RootField, block_of, coroutine_list, root, tasks};
use kernel_model::Use;
use kernel_model::numbers::RESIDENT_DATA;
use word_store::Store;

/// The used block of a user whose data begin at address v. Refused where there is none (6).
pub(crate) fn users_block(store: &Store, v: u32) -> Result<Block, u32>
    requires { (l : Lists) × HoldsLists store.now l }
    ensures { (l : Lists) → HoldsLists store.now l → IsUsersBlock l v result }
{
    let block = block_of(store, v).ok_or(NO_USER_BLOCK)?;
    if !block.is_used_at(v) {
        return Err(NO_USER_BLOCK);
    }
    if !is_user(use_of_data(store, v)) {
        return Err(NO_USER_BLOCK);
    }
    Ok(block)
}

/// What the block is used for.
pub fn use_of(store: &Store, block: Block) -> Use
    requires lists { (l : Lists) × HoldsLists store.now l }
    requires inside { block.start + 1 < 2 ^ 32 }
    ensures { (l : Lists) → HoldsLists store.now l → result ≡ use_of l block }
{
    if block.free {
        return Use::Free;
    }
    use_of_data(store, block.start + 1)
}

// What the used block is used for whose data begin at v.
fn use_of_data(store: &Store, v: u32) -> Use
    requires { (l : Lists) × HoldsLists store.now l }
    ensures { (l : Lists) → HoldsLists store.now l → result ≡ use_of_data l v }
{
    if is_of_residents(store, v) {
        return Use::OfResidents;
    }
    if is_task(store, v) {
        return Use::OfTask;
    }
    if is_module(store, v) {
        return Use::OfModule;
    }
    if is_coroutine(store, v) {
        return Use::OfCoroutine;
    }
    Use::User
}

fn is_user(used: Use) -> bool
    ensures { result ≡ is_user used }
{
    match used {
        Use::User => true,
        Use::Free | Use::OfTask | Use::OfModule | Use::OfCoroutine | Use::OfResidents => false,
    }
}

fn is_of_residents(store: &Store, v: u32) -> bool
    ensures { result ≡ (has_residents store.now && (v == RESIDENT_DATA)) }
{
    root(store, RootField::Residents) != 0 && v == RESIDENT_DATA
}

fn is_task(store: &Store, v: u32) -> bool
    requires { CanWalk store.now task_link first_task }
    ensures { result ≡ has v (tasks_in store.now) }
{
    for t in tasks(store) {
        if t == v {
            return true;
        }
    }
    false
}

// Whether a task has a coroutine there.
fn is_coroutine(store: &Store, v: u32) -> bool
    requires chain { CanWalk store.now task_link first_task }
    requires tasks { AllByRecursion (CanWalkTask store.now) (tasks_in store.now) }
    ensures { result ≡ list_any (λ t. has v (coroutines_in store.now t)) (tasks_in store.now) }
{
    for t in tasks(store) {
        if has_coroutine(store, t, v) {
            return true;
        }
    }
    false
}

fn has_coroutine(store: &Store, t: u32, v: u32) -> bool
    requires { CanWalkTask store.now t }
    ensures { result ≡ has v (coroutines_in store.now t) }
{
    for c in coroutine_list(store, t) {
        if c == v {
            return true;
        }
    }
    false
}
