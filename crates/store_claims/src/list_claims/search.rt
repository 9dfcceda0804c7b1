// A look along the chain of tasks.
ghost use Rattle.std.specs.Prelude.{◌≡◌};
ghost use Rattle.kernel_lists.specs.LinkedList.Walk.{CanWalk};
ghost use Rattle.kernel_lists.specs.TaskBlock.RootWords.{first_task};
ghost use Rattle.kernel_lists.specs.TaskBlock.TaskChain.{task_link};
ghost use Rattle.kernel_model.specs.KernelRecord.Recovered.{has_task_in};

use kernel_lists::{TcbField, field, tasks};
use word_store::Store;

/// Whether the chain has a task with the number.
pub fn has_task(store: &Store, id: u32) -> bool
    requires { CanWalk store.now task_link first_task }
    ensures { result ≡ has_task_in store.now id }
{
    for t in tasks(store) {
        if field(store, t, TcbField::Id) == id {
            return true;
        }
    }
    false
}
