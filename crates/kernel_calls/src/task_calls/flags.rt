// Flags of a task are set, and tested.
ghost use Rattle.std.specs.Prelude.{Ok};
ghost use Rattle.kernel_model.specs.KernelRecord.HoldsLists.{HoldsLists};
ghost use Rattle.kernel_model.specs.KernelRecord.Lists.{Lists};
ghost use Rattle.kernel_calls.specs.CallAnswers.Callers.{HasCaller};
ghost use Rattle.kernel_calls.specs.CallAnswers.CallChange.{Leaves, plain_answer};
ghost use Rattle.kernel_calls.specs.TaskCalls.SetFlags.{set_flags};
ghost use Rattle.kernel_calls.specs.TaskCalls.TestFlags.{test_flags};

use crate::call_answers::{caller, guest};
use kernel_lists::{TcbField, field, set_field};
use word_store::Store;

/// Sets these flags of the task with the number, beside those that it has. Refused where there is no such task (2), and
/// where it is a resident (14).
pub fn set_flags(store: &mut Store, id: u32, flags: u32) -> Result<(), u32>
    requires { (l : Lists) × HoldsLists store.old l }
    ensures { (l : Lists) → HoldsLists store.old l
        → Leaves store.old store.new (plain_answer result) (set_flags l id flags) }
{
    let task = guest(store, id)?;
    let old = field(store, task, TcbField::Flags);
    set_field(store, task, TcbField::Flags, old | flags);
    Ok(())
}

/// Answers which of these flags the task that calls has, and clears them.
pub fn test_flags(store: &mut Store, mask: u32) -> u32
    requires { (l : Lists) × HoldsLists store.old l × HasCaller l }
    ensures { (l : Lists) → HoldsLists store.old l → HasCaller l
        → Leaves store.old store.new (Ok result) (test_flags l mask) }
{
    let task = caller(store);
    let flags = field(store, task, TcbField::Flags);
    set_field(store, task, TcbField::Flags, flags & !mask);
    flags & mask
}
