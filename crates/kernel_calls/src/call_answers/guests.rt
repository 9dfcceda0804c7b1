// The guest with a number.
ghost use Rattle.kernel_model.specs.KernelRecord.HoldsLists.{HoldsLists};
ghost use Rattle.kernel_model.specs.KernelRecord.Lists.{Lists};
ghost use Rattle.kernel_calls.specs.CallAnswers.Guests.{IsGuestOf};

use crate::call_answers::codes::{NO_TASK, RESIDENT};
use kernel_lists::{FIRST_GUEST, find};
use word_store::Store;

/// The address of the guest's task block. Refused where there is no such task, or it is a resident.
pub fn guest(store: &Store, id: u32) -> Result<u32, u32>
    requires { (l : Lists) × HoldsLists store.now l }
    ensures { (l : Lists) → HoldsLists store.now l → IsGuestOf l id result }
{
    match find(store, id) {
        None => Err(NO_TASK),
        Some(_) if id < FIRST_GUEST => Err(RESIDENT),
        Some(task) => Ok(task),
    }
}
