// A task is released.
ghost use Rattle.kernel_model.specs.KernelRecord.HoldsLists.{HoldsLists};
ghost use Rattle.kernel_model.specs.KernelRecord.Lists.{Lists};
ghost use Rattle.kernel_calls.specs.CallAnswers.CallChange.{Leaves, plain_answer};
ghost use Rattle.kernel_calls.specs.TaskCalls.ReleaseTask.{release};

use crate::call_answers::codes::NOT_HELD;
use crate::call_answers::guest;
use kernel_lists::{TcbField, field, set_field};
use kernel_model::is_held_state;
use kernel_model::numbers::HELD;
use word_store::Store;

/// Releases the task with the number, which is held. Refused where there is no such task (2), where it is a resident (14),
/// and where it is not held (15).
pub fn release_task(store: &mut Store, id: u32) -> Result<(), u32>
    requires { (l : Lists) × HoldsLists store.old l }
    ensures { (l : Lists) → HoldsLists store.old l
        → Leaves store.old store.new (plain_answer result) (release l id) }
{
    let task = guest(store, id)?;
    let state = field(store, task, TcbField::State);
    if !is_held_state(state) {
        return Err(NOT_HELD);
    }
    set_field(store, task, TcbField::State, state - HELD);
    Ok(())
}
