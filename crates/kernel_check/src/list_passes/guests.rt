// The rules of a guest, and of a resident.
ghost use Rattle.std.specs.Prelude.{◌≡◌, ◌↔◌, ◌≤◌, ◌<◌, IsTrue, Some, true, false, length, slice_index};
ghost use Rattle.kernel_lists.specs.TaskBlock.Lists.{modules_in};
ghost use Rattle.kernel_lists.specs.TaskBlock.TaskChain.{id_in};
ghost use Rattle.kernel_model.specs.KernelRecord.Recovered.{lists_in, task_in};
ghost use Rattle.kernel_model.specs.KernelRecord.Task.{is_guest_id};
ghost use Rattle.kernel_model.specs.KernelRecord.ValidTasks.{IsFaultWord, IsGuest, IsResident, resident_place};
ghost use Rattle.kernel_check.specs.ListPasses.ClaimedStore.{IsClaimed};
ghost use Rattle.kernel_check.specs.ListPasses.StartMarks.{OpensMembers, OpensStarts};
ghost use Rattle.kernel_check.specs.ListPasses.Private.CanPass.{CanPass};
ghost use Rattle.kernel_check.specs.ListPasses.Private.TaskRules.{AreNamed, HasModules, HasWord, IsIdle};

use crate::list_passes::resident_pass::has_task;
use crate::list_passes::starts::has_block;
use crate::list_passes::table::highest_of;
use kernel_lists::{TcbField, field, head_words};
use kernel_model::is_held_state;
use kernel_model::numbers::{
    CONSOLE, FAULT_ADDRESS, FAULT_WORD, FILE_HANDLER, GLOBAL_WORDS, REPORTER, RESIDENT_WORDS, SHELL,
};
use store_claims::Claims;
use word_store::{Store, word_at};

/// The words of a task block that have saved registers: from this one on,
const FIRST_SAVED: u32 = 11;

/// up to before this one.
const AFTER_SAVED: u32 = 17;

/// Whether the task at t is as a guest must be, but for what is asked of all tasks.
pub(crate) fn is_valid_guest(store: &Store, starts: &Claims, modules: &Claims, t: u32) -> bool
    requires claimed { IsClaimed store.now }
    requires starts { OpensStarts store.now starts.now }
    requires modules { OpensMembers store.now (modules_in store.now) modules.now }
    requires can { CanPass store.now t }
    requires guest { is_guest_id (id_in store.now t) ≡ true }
    ensures { IsTrue result ↔ IsGuest (lists_in store.now) (task_in store.now t) }
{
    if field(store, t, TcbField::Id) > highest_of(store) {
        return false;
    }
    let stack = u64::from(field(store, t, TcbField::StackTop));
    if !has_block(
        store,
        starts,
        t,
        u64::from(head_words(store) + GLOBAL_WORDS) + stack,
    ) {
        return false;
    }
    let fault = field(store, t, FAULT_WORD);
    if !is_fault_word(fault, field(store, t, FAULT_ADDRESS)) {
        return false;
    }
    if fault != 0 && !has_task(store, REPORTER) {
        return false;
    }
    has_modules(store, modules, t)
}

// Whether a fault word and the address beside it say that there was no fault, or one, or one that was reported.
fn is_fault_word(code: u32, address: u32) -> bool
    ensures { IsTrue result ↔ IsFaultWord code address }
{
    if code == 0 {
        return address == 0;
    }
    if code < 256 {
        return code <= 8 && code != 6;
    }
    let fault = code - 256;
    fault >= 1 && fault <= 8 && fault != 6
}

// Whether the task has from one to the most modules, all of the list. The words of a task block allow no more than the most.
fn has_modules(store: &Store, modules: &Claims, t: u32) -> bool
    requires claimed { IsClaimed store.now }
    requires modules { OpensMembers store.now (modules_in store.now) modules.now }
    requires can { CanPass store.now t }
    requires guest { is_guest_id (id_in store.now t) ≡ true }
    ensures { IsTrue result ↔ HasModules (lists_in store.now) (task_in store.now t) }
{
    let first = field(store, t, TcbField::Module);
    let Some(further) = store.words(
        store.address_of(t, RESIDENT_WORDS),
        head_words(store) - RESIDENT_WORDS,
    ) else {
        return false;
    };
    if !are_named(modules, further) {
        return false;
    }
    if first == 0 {
        return has_word(further);
    }
    modules.is_open(first)
}

// Whether each of these words that is not 0 is open.
fn are_named(modules: &Claims, words: &[u32]) -> bool
    ensures { IsTrue result ↔ AreNamed modules.now words.now }
{
    for w in words {
        if *w != 0 && !modules.is_open(*w) {
            return false;
        }
    }
    true
}

/// Whether one of these words is not 0.
pub(crate) fn has_word(words: &[u32]) -> bool
    ensures { IsTrue result ↔ HasWord words.now }
{
    for w in words {
        if *w != 0 {
            return true;
        }
    }
    false
}

/// Whether the task at t is as a resident must be, but for what is asked of all tasks.
pub(crate) fn is_valid_resident(store: &Store, t: u32) -> bool
    requires can { CanPass store.now t }
    requires resident { is_guest_id (id_in store.now t) ≡ false }
    ensures { IsTrue result ↔ IsResident (task_in store.now t) }
{
    if !has_place(
        field(store, t, TcbField::Id),
        t,
        field(store, t, TcbField::Pri),
    ) {
        return false;
    }
    is_idle(store, t)
}

// Whether these are the address and the priority of the resident with the number.
fn has_place(id: u32, t: u32, priority: u32) -> bool
    ensures { IsTrue result ↔ (resident_place id ≡ Some (t, priority)) }
{
    if id == SHELL {
        return t == 201 && priority == 1000;
    }
    if id == REPORTER {
        return t == 287 && priority == 3000;
    }
    if id == CONSOLE {
        return t == 224 && priority == 6000;
    }
    if id == FILE_HANDLER {
        return t == 247 && priority == 5000;
    }
    false
}

// Whether the words of its task block hold nothing that a resident has not, and it is neither dead nor held.
fn is_idle(store: &Store, t: u32) -> bool
    ensures { IsTrue result ↔ IsIdle store.now t }
{
    let state = field(store, t, TcbField::State);
    if state / 4 == 3 || is_held_state(state) {
        return false;
    }
    if field(store, t, TcbField::Module) != 0 || field(store, t, TcbField::StackTop) != 0 {
        return false;
    }
    if field(store, t, FAULT_WORD) != 0 || field(store, t, FAULT_ADDRESS) != 0 {
        return false;
    }
    let current = field(store, t, TcbField::CurrentCo);
    if field(store, t, TcbField::FirstCo) != 0 || (current != 0 && current != t) {
        return false;
    }
    for i in FIRST_SAVED..AFTER_SAVED {
        if word_at(store, t, i) != 0 {
            return false;
        }
    }
    true
}
