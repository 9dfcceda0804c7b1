// A task gets another priority.
ghost use Rattle.std.specs.Prelude.{◌≡◌, true};
ghost use Rattle.kernel_lists.specs.LinkedList.Places.{has};
ghost use Rattle.kernel_lists.specs.TaskBlock.Moves as moves;
ghost use Rattle.kernel_lists.specs.TaskBlock.TaskChain.{HasTasks, tasks_in};
ghost use Rattle.kernel_model.specs.KernelRecord.HoldsLists.{HoldsLists};
ghost use Rattle.kernel_model.specs.KernelRecord.Lists.{Lists};
ghost use Rattle.kernel_calls.specs.CallAnswers.CallChange.{Leaves, plain_answer};
ghost use Rattle.kernel_calls.specs.CallAnswers.Refusals.{answer_of, first_refusal};
ghost use Rattle.kernel_calls.specs.TaskCalls.ChangePri.{change_pri, is_priority, priority_tests};

use crate::call_answers::codes::{NO_PRIORITY, PRIORITY_TAKEN};
use crate::call_answers::guest;
use kernel_lists::{TcbField, insert, priority_used, set_field, unlink};
use word_store::Store;

/// The highest priority.
const HIGHEST: u32 = 10_000;

/// Gives the task with the number another priority, and the place in the chain that it has by it. Refused where there is no
/// such task (2), where it is a resident (14), where the priority is not from 1 to 10,000 (9), and where another task has
/// it (8).
pub fn change_pri(store: &mut Store, id: u32, pri: u32) -> Result<(), u32>
    requires { (l : Lists) × HoldsLists store.old l }
    ensures { (l : Lists) → HoldsLists store.old l
        → Leaves store.old store.new (plain_answer result) (change_pri l id pri) }
{
    let task = guest(store, id)?;
    check_priority(store, id, pri)?;
    move_task(store, task, pri);
    Ok(())
}

/// Refused where it is no priority, or a task with another number has it. No task has the number 0.
pub(crate) fn check_priority(store: &Store, id: u32, pri: u32) -> Result<(), u32>
    requires { (l : Lists) × HoldsLists store.now l }
    ensures { (l : Lists) → HoldsLists store.now l
        → result ≡ answer_of (first_refusal (priority_tests l id pri)) }
{
    if !is_priority(pri) {
        return Err(NO_PRIORITY);
    }
    if priority_used(store, pri, id) {
        return Err(PRIORITY_TAKEN);
    }
    Ok(())
}

// Whether tasks may have the priority.
fn is_priority(pri: u32) -> bool
    ensures { result ≡ is_priority pri }
{
    (1..=HIGHEST).contains(&pri)
}

// Takes the task at the address out of the chain, sets its priority, and lets it come in again.
fn move_task(store: &mut Store, task: u32, pri: u32)
    requires tasks { HasTasks store.old }
    requires task { has task (tasks_in store.old) ≡ true }
    ensures { store.new ≡ moves.with_task (moves.with_priority store.old task pri) task }
{
    unlink(store, task);
    set_field(store, task, TcbField::Pri, pri);
    insert(store, task);
}
