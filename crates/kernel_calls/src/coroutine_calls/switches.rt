// The task that runs goes on in another of its coroutines.
ghost use Rattle.std.specs.Prelude.{Ok};
ghost use Rattle.kernel_model.specs.KernelRecord.HoldsLists.{HoldsLists};
ghost use Rattle.kernel_model.specs.KernelRecord.Lists.{Lists};
ghost use Rattle.kernel_calls.specs.CallAnswers.Callers.{HasCaller};
ghost use Rattle.kernel_calls.specs.CoroutineCalls.CallCo.{callco};
ghost use Rattle.kernel_calls.specs.CoroutineCalls.CoWait.{IsWithin, cowait, ended};
ghost use Rattle.kernel_calls.specs.CoroutineCalls.ResumeCo.{resumeco};
ghost use Rattle.kernel_calls.specs.CoroutineCalls.SwitchChange.{IsSwitched};

use crate::call_answers::caller;
use crate::coroutine_calls::refusals::coded;
use kernel_lists::{call_coroutine, coroutine_ended, resume_coroutine, wait_in_coroutine};
use word_store::{Regs, Store};

/// Calls the coroutine c of the running task with v: the current one, or the root, becomes its parent, and its P and PC are
/// saved. The registers are then those of c, with v in A and 0 in B. Refused where the task has no such coroutine (21), and
/// where it has a parent (22).
pub fn callco(store: &mut Store, regs: &mut Regs, c: u32, v: u32) -> Result<(), u32>
    requires { (l : Lists) × HoldsLists store.old l × HasCaller l }
    ensures { (l : Lists) → HoldsLists store.old l → HasCaller l
        → IsSwitched store.old store.new l regs.new result (callco l regs.old c v) }
{
    let task = caller(store);
    coded(call_coroutine(store, task, regs, c, v))
}

/// Resumes the coroutine c of the running task with v, in place of the current one, whose parent becomes its own and whose P
/// and PC are saved. The registers are then those of c, with v in A and 0 in B. Where c is the current one only A and B change.
/// Refused where the task has no such coroutine (21), where it is in its root (23), and where c has a parent and is not the
/// current one (22).
pub fn resumeco(store: &mut Store, regs: &mut Regs, c: u32, v: u32) -> Result<(), u32>
    requires { (l : Lists) × HoldsLists store.old l × HasCaller l }
    ensures { (l : Lists) → HoldsLists store.old l → HasCaller l
        → IsSwitched store.old store.new l regs.new result (resumeco l regs.old c v) }
{
    let task = caller(store);
    coded(resume_coroutine(store, task, regs, c, v))
}

/// Makes the current coroutine of the running task wait: its P and PC are saved, it has no parent any more, and its parent goes
/// on with v in A and 0 in B. Refused where the task is in its root (23).
pub fn cowait(store: &mut Store, regs: &mut Regs, v: u32) -> Result<(), u32>
    requires { (l : Lists) × HoldsLists store.old l × HasCaller l }
    ensures { (l : Lists) → HoldsLists store.old l → HasCaller l
        → IsSwitched store.old store.new l regs.new result (cowait l regs.old v) }
{
    let task = caller(store);
    coded(wait_in_coroutine(store, task, regs, v))
}

/// Does what is due where the function of the running task's current coroutine, which is not its root, has returned: the parent
/// goes on with what A holds, and 0 in B, and the coroutine, which has no parent any more, starts again at its function when it
/// is called or resumed, with P at its bottom frame.
pub fn ended(store: &mut Store, regs: &mut Regs)
    requires { (l : Lists) × HoldsLists store.old l × HasCaller l × IsWithin l }
    ensures { (l : Lists) → HoldsLists store.old l → HasCaller l → IsWithin l
        → IsSwitched store.old store.new l regs.new (Ok tt) (ended l regs.old) }
{
    let task = caller(store);
    coroutine_ended(store, task, regs);
}
