// A task gets one more module.
ghost use Rattle.std.specs.Prelude.{◌≡◌, ◌≤◌, ◌+◌, ◌==◌, ℕ, length};
ghost use Rattle.kernel_lists.specs.TaskBlock.Versions.{head_words};
ghost use Rattle.kernel_lists.specs.declared.task_block.fields.TcbField.TheVariants.{State};
ghost use Rattle.kernel_model.specs.KernelRecord.HoldsLists.{HoldsLists};
ghost use Rattle.kernel_model.specs.KernelRecord.Lists.{Lists};
ghost use Rattle.kernel_model.specs.KernelRecord.Recovered.{field_in};
ghost use Rattle.kernel_model.specs.KernelRecord.Task.{field_of_state};
ghost use Rattle.kernel_model.specs.KernelRecord.ValidTasks.{dead};
ghost use Rattle.kernel_calls.specs.CallAnswers.Guests.{GuestAt};
ghost use Rattle.kernel_calls.specs.CallAnswers.CallChange.{IsMade};
ghost use Rattle.kernel_calls.specs.ModuleCalls.AddModule.{IsCounted, add_module};
ghost use Rattle.kernel_calls.specs.ModuleCalls.Private.ModuleFields.{further_count};
ghost use Rattle.kernel_model.specs.KernelRecord.ChangedStore.{HasKeeper};

use crate::call_answers::codes::{
    GLOBALS_TOO_HIGH, MODULES_FULL, NO_MODULE, NOT_DEAD, PACKET_INSIDE,
};
use crate::call_answers::{guest, is_module};
use kernel_lists::{
    TcbField, field, globals_fit, init_globals, module_at, most_modules, set_module_at,
};
use kernel_model::numbers::{DEAD, GLOBAL_WORDS};
use kernel_model::{KindKeeper, are_unowned, field_of_state};
use word_store::Store;

/// Gives the dead task with the number the module at m as its last one, and sets the module's globals in those of the task.
/// The answer is the number of its modules. Refused where there is no such task (2), where it is a resident (14), where it
/// is not dead (11), where there is no such module (17), where the task has as many modules as it may have (28), where a
/// hunk of the module has a number of a global above 1,000 (18), and where a word of a queued packet lies in the task's
/// globals (7).
pub fn add_module<Q: KindKeeper>(store: &mut Store, kinds: &Q, id: u32, m: u32) -> Result<u32, u32>
    requires { (l : Lists) × HasKeeper store.old (Q.tells kinds.now) (Q.room kinds.now) l }
    ensures made { (l : Lists)
        → HasKeeper store.old (Q.tells kinds.now) (Q.room kinds.now) l
        → IsMade store.old store.new (Q.tells kinds.now) result (add_module store.old l id m) }
{
    let task = guest(store, id)?;
    let count = check_addition(store, task, m)?;
    let globals = field(store, task, TcbField::Globals);
    if !are_unowned(store, kinds, globals, GLOBAL_WORDS) {
        return Err(PACKET_INSIDE);
    }
    init_globals(store, m, globals);
    set_module_at(store, task, count + 1, m);
    Ok(count + 1)
}

// How many modules the task has. Refused where it is not dead, where there is no such module, where it has as many as it
// may have, and where the module's globals do not fit.
fn check_addition(store: &Store, task: u32, m: u32) -> Result<u32, u32>
    requires { (l : Lists) × (id : ℕ) × HoldsLists store.now l × GuestAt l id task }
    ensures { (l : Lists) (id : ℕ) (g : GuestAt l id task) → HoldsLists store.now l
        → IsCounted store.now l id m g.task result }
{
    if !is_dead(store, task) {
        return Err(NOT_DEAD);
    }
    if !is_module(store, m) {
        return Err(NO_MODULE);
    }
    let count = count_modules(store, task);
    if count == most_modules(store) {
        return Err(MODULES_FULL);
    }
    if !globals_fit(store, m) {
        return Err(GLOBALS_TOO_HIGH);
    }
    Ok(count)
}

// Whether the task is dead: its state without the bits that say that packets wait and that it is held.
fn is_dead(store: &Store, task: u32) -> bool
    ensures { result ≡ (field_of_state (field_in store.now task State) == dead) }
{
    field_of_state(field(store, task, TcbField::State)) == DEAD
}

// The number of a guest's modules, of which it has one at least.
fn count_modules(store: &Store, task: u32) -> u32
    requires { task + head_words store.now ≤ length store.now }
    ensures { result ≡ 1 + further_count store.now task }
{
    let mut count = 1;
    for i in 2..most_modules(store) + 1 {
        if module_at(store, task, i) == 0 {
            continue;
        }
        count += 1;
    }
    count
}
