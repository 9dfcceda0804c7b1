// The words of a task that follow from others.
ghost use Rattle.std.specs.Prelude.{◌≡◌, ◌↔◌, ◌+◌, IsTrue, slice_index};
ghost use Rattle.kernel_lists.specs.OwnedWords.LinkedWords.{first_of};
ghost use Rattle.kernel_lists.specs.OwnedWords.Owned.{Holds};
ghost use Rattle.kernel_lists.specs.TaskBlock.TaskChain.{tasks_in};
ghost use Rattle.kernel_model.specs.KernelRecord.Recovered.{lists_in, task_in};
ghost use Rattle.kernel_model.specs.KernelRecord.Task.{fault_words, globals_of, queue_bit, stack_of, state_words};
ghost use Rattle.std.specs.List.{AllByRecursion};
ghost use Rattle.store_claims.specs.AdoptionLaw.Passes.{HoldsTaskWords};
ghost use Rattle.kernel_check.specs.ListPasses.ClaimedStore.{IsClaimed};
ghost use Rattle.kernel_check.specs.ListPasses.Private.CanPass.{CanPass};
ghost use Rattle.kernel_check.specs.ListPasses.Frames.{OwnsCoroutines};
ghost use Rattle.kernel_check.specs.ListPasses.Private.TaskRules.{IsDense};

use crate::list_passes::frames::holds_frames;
use crate::list_passes::guests::has_word;
use kernel_lists::{FIRST_GUEST, TcbField, field, head_words, tasks};
use kernel_model::numbers::{GLOBAL_WORDS, RESIDENT_WORDS};
use word_store::Store;

/// Whether the words of tasks that follow from others are right: the bit of the queue, the addresses of stack and globals, the zeros
/// after a guest's modules, and the fixed words of coroutines.
pub fn holds_words_of_tasks(store: &Store) -> bool
    requires claimed { IsClaimed store.now }
    requires own { AllByRecursion (OwnsCoroutines store.now) (tasks_in store.now) }
    ensures { IsTrue result ↔
        AllByRecursion (HoldsTaskWords store.now (lists_in store.now)) (lists_in store.now).tasks }
{
    for t in tasks(store) {
        if !holds_task_words(store, t) {
            return false;
        }
    }
    true
}

// The same of the task at t.
fn holds_task_words(store: &Store, t: u32) -> bool
    requires can { CanPass store.now t }
    requires own { OwnsCoroutines store.now t }
    ensures { IsTrue result ↔ HoldsTaskWords store.now (lists_in store.now) (task_in store.now t) }
{
    if !holds_state_words(store, t) {
        return false;
    }
    if !holds_further_words(store, t) {
        return false;
    }
    holds_frames(store, t)
}

// Whether the words 4 to 16 of the task block at t are right: the bit of the queue, the addresses of stack and globals, and the first
// module.
fn holds_state_words(store: &Store, t: u32) -> bool
    requires can { CanPass store.now t }
    ensures { IsTrue result ↔
        Holds store.now (state_words (lists_in store.now).version (task_in store.now t)) }
{
    if field(store, t, TcbField::State) % 2 != queue_bit(store, t) {
        return false;
    }
    if u64::from(field(store, t, TcbField::Stack)) != stack_of(store, t) {
        return false;
    }
    if u64::from(field(store, t, TcbField::Globals)) != globals_of(store, t) {
        return false;
    }
    is_dense_from_first(store, t)
}

// 1 where the work queue of the task at t is not empty, else 0.
fn queue_bit(store: &Store, t: u32) -> u32
    requires can { CanPass store.now t }
    ensures { result ≡ queue_bit (task_in store.now t).queue }
{
    if field(store, t, TcbField::Queue) == 0 {
        0
    } else {
        1
    }
}

// The address of its stack: 0 of a resident.
fn stack_of(store: &Store, t: u32) -> u64
    ensures { result ≡ stack_of (lists_in store.now).version (task_in store.now t) }
{
    if field(store, t, TcbField::Id) >= FIRST_GUEST {
        u64::from(t) + u64::from(head_words(store) + GLOBAL_WORDS)
    } else {
        0
    }
}

// That of its globals.
fn globals_of(store: &Store, t: u32) -> u64
    ensures { result ≡ globals_of (lists_in store.now).version (task_in store.now t) }
{
    if field(store, t, TcbField::Id) >= FIRST_GUEST {
        u64::from(t) + u64::from(head_words(store))
    } else {
        0
    }
}

// Whether no module comes after a first word that is 0.
fn is_dense_from_first(store: &Store, t: u32) -> bool
    requires can { CanPass store.now t }
    ensures { IsTrue result ↔
        (slice_index store.now (t + 10) ≡ first_of (λ m. m) (task_in store.now t).modules 0) }
{
    if field(store, t, TcbField::Module) != 0 {
        return true;
    }
    if field(store, t, TcbField::Id) < FIRST_GUEST {
        return true;
    }
    let Some(further) = store.words(
        store.address_of(t, RESIDENT_WORDS),
        head_words(store) - RESIDENT_WORDS,
    ) else {
        return false;
    };
    !has_word(further)
}

// Whether the words of the task block at t from 21 on are right: a guest's modules in order, and then zeros.
fn holds_further_words(store: &Store, t: u32) -> bool
    requires can { CanPass store.now t }
    requires first { slice_index store.now (t + 10)
        ≡ first_of (λ m. m) (task_in store.now t).modules 0 }
    ensures { IsTrue result ↔
        Holds store.now (fault_words (lists_in store.now).version (task_in store.now t)) }
{
    if field(store, t, TcbField::Id) < FIRST_GUEST {
        return true;
    }
    let Some(further) = store.words(
        store.address_of(t, RESIDENT_WORDS),
        head_words(store) - RESIDENT_WORDS,
    ) else {
        return false;
    };
    are_dense(further)
}

// Whether each word after one that is 0 is 0.
fn are_dense(words: &[u32]) -> bool
    ensures { IsTrue result ↔ IsDense words.now }
{
    for i in 1..words.len() {
        if words[i - 1] == 0 && words[i] != 0 {
            return false;
        }
    }
    true
}
