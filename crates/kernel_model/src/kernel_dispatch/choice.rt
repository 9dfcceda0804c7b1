// The choice: the first ready task of the chain.
ghost use Rattle.std.specs.Prelude.{◌≡◌, find};
ghost use Rattle.kernel_lists.specs.TaskBlock.RootWords.{first_task};
ghost use Rattle.kernel_lists.specs.TaskBlock.TaskChain.{task_link, tasks_in};
ghost use Rattle.kernel_lists.specs.LinkedList.Walk.{CanWalk};
ghost use Rattle.kernel_model.specs.KernelRecord.HoldsLists.{HoldsLists};
ghost use Rattle.kernel_model.specs.KernelRecord.Lists.{Lists};
ghost use Rattle.kernel_model.specs.KernelDispatch.Dispatch.{first_ready_block};
ghost use Rattle.kernel_model.specs.KernelDispatch.Private.DispatchWords.{is_ready_in, is_ready_state};

use crate::kernel_record::is_held_state;
use kernel_lists::{TcbField, field, tasks};
use word_store::Store;

/// The task block of the first ready task; `None` exactly where none is ready.
pub fn choose(store: &Store) -> Option<u32>
    requires { (l : Lists) × HoldsLists store.now l }
    ensures { (l : Lists) → HoldsLists store.now l → result ≡ first_ready_block l }
{
    first_by_state(store)
}

// The first task of the chain whose state is that of a ready one.
fn first_by_state(store: &Store) -> Option<u32>
    requires { CanWalk store.now task_link first_task }
    ensures { result ≡ find (is_ready_in store.now) (tasks_in store.now) }
{
    for t in tasks(store) {
        if is_ready(store, t) {
            return Some(t);
        }
    }
    None
}

// Whether the task at t is ready, by its state.
fn is_ready(store: &Store, t: u32) -> bool
    ensures { result ≡ is_ready_in store.now t }
{
    has_ready_state(field(store, t, TcbField::State))
}

fn has_ready_state(state: u32) -> bool
    ensures { result ≡ is_ready_state state }
{
    !is_held_state(state) && (state % 8 < 4 || state % 2 == 1)
}
