// The task that makes a call.
ghost use Rattle.kernel_model.specs.KernelRecord.HoldsLists.{HoldsLists};
ghost use Rattle.kernel_model.specs.KernelRecord.Lists.{Lists};
ghost use Rattle.kernel_calls.specs.CallAnswers.Callers.{HasCaller};
ghost use Rattle.kernel_calls.specs.CallAnswers.Guests.{GuestAt};

use kernel_lists::{RootField, root};
use word_store::Store;

/// The address of the running task's block, where a guest runs.
pub fn caller(store: &Store) -> u32
    ensures { (l : Lists) → HoldsLists store.now l → HasCaller l → GuestAt l l.running result }
{
    root(store, RootField::Running)
}
