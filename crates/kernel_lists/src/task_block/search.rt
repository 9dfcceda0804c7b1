// Which tasks there are: by number, and by priority.
ghost use Rattle.std.specs.Prelude.{◌≡◌};
ghost use Rattle.kernel_lists.specs.TaskBlock.TaskChain.{HasTasks, is_priority_used, lowest_free_id, task_with, tasks_in};

use crate::task_block::fields::{TcbField, field};
use crate::task_block::lists::tasks;
use crate::task_block::versions::highest_id;
use word_store::{Store, word};

/// Where the task table begins: the entry of task i is i words after it, and word 0 has the highest number of a task.
pub const TABLE: u32 = 120;

/// The lowest number of a guest. Those below are the residents'.
pub const FIRST_GUEST: u32 = 5;

/// The address of the task block of the task with that number; `None` exactly where there is no such task.
pub fn find(store: &Store, id: u32) -> Option<u32>
    requires { HasTasks store.now }
    ensures { result ≡ task_with store.now id (tasks_in store.now) }
{
    if id == 0 || id > highest_id(store) {
        return None;
    }
    match word(store, TABLE + id) {
        0 => None,
        t => Some(t),
    }
}

/// The lowest number from 5 to the highest that no task has; `None` exactly where tasks have them all.
pub fn free_id(store: &Store) -> Option<u32>
    requires { HasTasks store.now }
    ensures { result ≡ lowest_free_id store.now }
{
    for id in FIRST_GUEST..highest_id(store) + 1 {
        if word(store, TABLE + id) == 0 {
            return Some(id);
        }
    }
    None
}

/// Whether a task with another number than `except` has the priority. No task has the number 0, so with 0 it is whether any
/// task has it.
pub fn priority_used(store: &Store, pri: u32, except: u32) -> bool
    requires { HasTasks store.now }
    ensures { result ≡ is_priority_used store.now pri except }
{
    for t in tasks(store) {
        if field(store, t, TcbField::Pri) == pri && field(store, t, TcbField::Id) != except {
            return true;
        }
    }
    false
}
