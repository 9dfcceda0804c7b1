// The chain of tasks, in falling priority, and the task table: a task comes in, and goes out.
ghost use Rattle.std.specs.Prelude.{◌≡◌, ◌≢◌, ◌+◌, true, slice_set};
ghost use Rattle.std.specs.List.{AllByRecursion};
ghost use Rattle.kernel_lists.specs.LinkedList.Places.{has, insert_after, without};
ghost use Rattle.kernel_lists.specs.TaskBlock.Moves.{link_above, with_task, without_task};
ghost use Rattle.kernel_lists.specs.TaskBlock.TaskChain.{Fall, HasTasks, IsNewPriority, IsNewTask, id_in, is_above, task_link, tasks_in};

use crate::linked_list::{link_in, unlink as unlink_node};
use crate::task_block::fields::{TcbField, field};
use crate::task_block::lists::{TASK_LINK, tasks};
use crate::task_block::roots::RootField;
use crate::task_block::search::TABLE;
use word_store::{Store, set_word_at};

/// Puts the task at t into the chain, directly after the last task of a higher priority and at the front where there is
/// none, and into the table by its number. Written are the task's link, the link or head before it, and its entry of the
/// table. Where priorities fell along the chain, and none was the same, they still fall.
pub fn insert(store: &mut Store, t: u32)
    requires tasks { HasTasks store.old }
    requires task { IsNewTask store.old t }
    ensures chain { tasks_in store.new
        ≡ insert_after (is_above store.old t) t (tasks_in store.old) }
    ensures words { store.new ≡ with_task store.old t }
    ensures tasks { HasTasks store.new }
    ensures order { Fall store.old (tasks_in store.old) → IsNewPriority store.old t
        → Fall store.new (tasks_in store.new) }
{
    let id = field(store, t, TcbField::Id);
    let cell = link_above(store, t);
    link_in(store, cell, t, TASK_LINK);
    set_word_at(store, TABLE, id, t);
}

// The word that leads on from the last task of a higher priority than the one at t, or the head of the chain.
fn link_above(store: &Store, t: u32) -> u32
    requires tasks { HasTasks store.now }
    requires task { IsNewTask store.now t }
    ensures { result ≡ link_above store.now t }
{
    let own = field(store, t, TcbField::Pri);
    let mut cell = RootField::FirstTask.address();
    for u in tasks(store) {
        if field(store, u, TcbField::Pri) > own {
            cell = u;
        }
    }
    cell
}

/// Takes the task at t out of the chain and out of the table. Written are the link or head before it and its entry of the
/// table, so the words of its block stay, the link too, and it may come in again. Where priorities fell along the chain,
/// they still fall.
pub fn unlink(store: &mut Store, t: u32)
    requires tasks { HasTasks store.old }
    requires task { has t (tasks_in store.old) ≡ true }
    ensures chain { tasks_in store.new ≡ without t (tasks_in store.old) }
    ensures words { store.new ≡ without_task store.old t }
    ensures tasks { HasTasks store.new }
    ensures task { IsNewTask store.new t }
    ensures order { Fall store.old (tasks_in store.old) → Fall store.new (tasks_in store.new) }
{
    let id = field(store, t, TcbField::Id);
    unlink_node(store, RootField::FirstTask.address(), t, TASK_LINK);
    set_word_at(store, TABLE, id, 0);
}
