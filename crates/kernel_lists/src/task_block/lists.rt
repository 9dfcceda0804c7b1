// The lists that begin in the root and in task blocks, one member after the other.
ghost use Rattle.std.specs.Prelude.{◌≡◌, ◌<◌, length};
ghost use Rattle.kernel_lists.specs.LinkedList.Walk.{CanWalk};
ghost use Rattle.kernel_lists.specs.TaskBlock.Lists.{coroutine_link, coroutines_in, first_coroutine, module_link, modules_in};
ghost use Rattle.kernel_lists.specs.TaskBlock.RootWords.{first_module, first_task};
ghost use Rattle.kernel_lists.specs.TaskBlock.TaskChain.{task_link, tasks_in};

use crate::linked_list::{Nodes, follow};
use crate::task_block::fields::TcbField;
use crate::task_block::roots::RootField;
use word_store::Store;

/// Which word of a task block links to the next one.
pub(crate) const TASK_LINK: u32 = 0;

/// Which word of a module links to the next one.
const MODULE_LINK: u32 = 0;

/// Which word of a coroutine links to the next one.
const COROUTINE_LINK: u32 = 2;

/// The addresses of the task blocks in the order of the chain.
pub fn tasks(store: &Store) -> Nodes<'_>
    requires { CanWalk store.now task_link first_task }
    ensures { result ≡ tasks_in store.now }
{
    follow(store, RootField::FirstTask.address(), TASK_LINK)
}

/// The addresses of the modules, the newest first.
pub fn modules(store: &Store) -> Nodes<'_>
    requires { CanWalk store.now module_link first_module }
    ensures { result ≡ modules_in store.now }
{
    follow(store, RootField::FirstModule.address(), MODULE_LINK)
}

/// The addresses of the coroutines of the task at t, the newest first.
pub fn coroutine_list(store: &Store, t: u32) -> Nodes<'_>
    requires head { first_coroutine t < length store.now }
    requires list { CanWalk store.now coroutine_link (first_coroutine t) }
    ensures { result ≡ coroutines_in store.now t }
{
    let head = store.address_of(t, TcbField::FirstCo.index());
    follow(store, head, COROUTINE_LINK)
}
