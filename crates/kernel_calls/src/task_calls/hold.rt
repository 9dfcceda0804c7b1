// A task is held.
ghost use Rattle.kernel_model.specs.KernelRecord.HoldsLists.{HoldsLists};
ghost use Rattle.kernel_model.specs.KernelRecord.Lists.{Lists};
ghost use Rattle.kernel_calls.specs.CallAnswers.CallChange.{Leaves, plain_answer};
ghost use Rattle.kernel_calls.specs.TaskCalls.HoldTask.{hold};

use crate::call_answers::codes::HELD_ALREADY;
use crate::call_answers::guest;
use kernel_lists::{TcbField, field, set_field};
use kernel_model::is_held_state;
use kernel_model::numbers::HELD;
use word_store::Store;

/// Holds the task with the number, so that it does not run until it is released. Refused where there is no such task (2),
/// where it is a resident (14), and where it is held already (16).
pub fn hold_task(store: &mut Store, id: u32) -> Result<(), u32>
    requires { (l : Lists) × HoldsLists store.old l }
    ensures { (l : Lists) → HoldsLists store.old l
        → Leaves store.old store.new (plain_answer result) (hold l id) }
{
    let task = guest(store, id)?;
    let state = field(store, task, TcbField::State);
    if is_held_state(state) {
        return Err(HELD_ALREADY);
    }
    set_field(store, task, TcbField::State, state + HELD);
    Ok(())
}
