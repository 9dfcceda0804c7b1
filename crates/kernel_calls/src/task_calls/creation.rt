// A task is created.
ghost use Rattle.std.specs.Prelude.{◌≡◌, [], ◌∷◌};
ghost use Rattle.std.specs.Option.{ok_or};
ghost use Rattle.kernel_model.specs.KernelRecord.HoldsLists.{HoldsLists};
ghost use Rattle.kernel_model.specs.KernelRecord.Lists.{Lists};
ghost use Rattle.kernel_calls.specs.CallAnswers.CallChange.{IsMade};
ghost use Rattle.kernel_calls.specs.TaskCalls.CreateTask.{MayCreate, create_task, number_of};
ghost use Rattle.kernel_model.specs.KernelRecord.ChangedStore.{HasKeeper};

use crate::call_answers::codes::NO_FREE_ID;
use crate::task_calls::module_tests::{check_globals, check_modules};
use crate::task_calls::new_tasks::place_task;
use crate::task_calls::priority::check_priority;
use kernel_lists::free_id;
use kernel_model::KindKeeper;
use word_store::Store;

/// Makes a dead task of one module, as `create_task_of` does.
pub fn create_task<Q: KindKeeper>(
    store: &mut Store,
    kinds: &mut Q,
    id: u32,
    module: u32,
    u: u32,
    pri: u32,
    maker: u32,
) -> Result<u32, u32>
    requires { (l : Lists)
        × HasKeeper store.old (Q.tells kinds.old) (Q.room kinds.old) l
        × MayCreate l id («module» ∷ []) maker }
    ensures made { (l : Lists)
        → HasKeeper store.old (Q.tells kinds.old) (Q.room kinds.old) l
        → MayCreate l id («module» ∷ []) maker
        → IsMade store.old store.new (Q.tells kinds.new) result
        (create_task store.old l id («module» ∷ []) u pri maker) }
    ensures room { Q.room kinds.new ≡ Q.room kinds.old }
{
    create_task_of(store, kinds, id, &[module], u, pri, maker)
}

/// Makes a dead task of these modules, from 1 to as many as a task may have, with a stack up to the index u, and answers its
/// number. The number is `id`, which no task has, or for 0 the lowest free one from 5. The task has one block for the words of
/// its task block, its 1,001 globals and its stack, all cleared; global 0 is 1000, and the modules set theirs in their order.
/// Refused where one of them is no module (17), where the priority is not from 1 to 10,000 (9), where a task has it (8), where
/// no number is free (10), where a module has a number of a global above 1,000 (18), and where no run of free blocks is large
/// enough (1).
pub fn create_task_of<Q: KindKeeper>(
    store: &mut Store,
    kinds: &mut Q,
    id: u32,
    modules: &[u32],
    u: u32,
    pri: u32,
    maker: u32,
) -> Result<u32, u32>
    requires { (l : Lists)
        × HasKeeper store.old (Q.tells kinds.old) (Q.room kinds.old) l
        × MayCreate l id modules.now maker }
    ensures made { (l : Lists)
        → HasKeeper store.old (Q.tells kinds.old) (Q.room kinds.old) l
        → MayCreate l id modules.now maker
        → IsMade store.old store.new (Q.tells kinds.new) result
        (create_task store.old l id modules.now u pri maker) }
    ensures room { Q.room kinds.new ≡ Q.room kinds.old }
{
    check_modules(store, modules)?;
    check_priority(store, 0, pri)?;
    let number = number(store, id)?;
    check_globals(store, modules)?;
    place_task(store, kinds, number, modules, u, pri, maker)
}

// The number that is meant: for 0 the lowest one of a guest's that no task has.
fn number(store: &Store, id: u32) -> Result<u32, u32>
    requires { (l : Lists) × HoldsLists store.now l }
    ensures { (l : Lists) → HoldsLists store.now l → result ≡ ok_or (number_of l id) 10 }
{
    if id != 0 {
        return Ok(id);
    }
    free_id(store).ok_or(NO_FREE_ID)
}
