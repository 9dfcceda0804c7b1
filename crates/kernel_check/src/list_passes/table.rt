// The task table, and the word of the running task.
ghost use Rattle.std.specs.Prelude.{◌≡◌, ◌↔◌, ◌≤◌, IsTrue, slice_index};
ghost use Rattle.kernel_lists.specs.OwnedWords.Owned.{Holds};
ghost use Rattle.kernel_lists.specs.TaskBlock.ChainWords.{entries};
ghost use Rattle.kernel_lists.specs.TaskBlock.HeldTasks.{address_with};
ghost use Rattle.kernel_lists.specs.TaskBlock.RootWords.{root_address};
ghost use Rattle.kernel_lists.specs.declared.task_block.roots.RootField.TheVariants.{Running};
ghost use Rattle.kernel_model.specs.KernelRecord.Lists.{address_of_task};
ghost use Rattle.kernel_model.specs.KernelRecord.Recovered.{lists_in};
ghost use Rattle.kernel_model.specs.KernelRecord.Task.{task_address, task_id};
ghost use Rattle.kernel_model.specs.KernelRecord.Versions.{highest_id_of};
ghost use Rattle.kernel_check.specs.ListPasses.ClaimedStore.{IsClaimed};

use kernel_lists::{RootField, TABLE, TcbField, field, root, tasks};
use word_store::{Store, word};

/// Whether the task table leads to each task, and to nothing else.
pub fn holds_table(store: &Store) -> bool
    requires claimed { IsClaimed store.now }
    ensures { IsTrue result ↔ Holds store.now (entries (address_with task_address task_id
        (lists_in store.now).tasks) 1 (highest_id_of (lists_in store.now).version)) }
{
    for i in 0..highest_of(store) {
        if word(store, TABLE + (1 + i)) != address_of(store, 1 + i) {
            return false;
        }
    }
    true
}

/// Whether the word of the running task is 0, or the address of a task of the chain.
pub fn is_valid_running(store: &Store) -> bool
    requires claimed { IsClaimed store.now }
    ensures { IsTrue result ↔ (slice_index store.now (root_address Running)
        ≡ address_of_task (lists_in store.now) (lists_in store.now).running) }
{
    root(store, RootField::Running) == address_of(store, running_of(store))
}

/// The number of the task at whose block the word of the running task is, or 0.
pub fn running_of(store: &Store) -> u32
    ensures { result ≡ (lists_in store.now).running }
{
    let t = root(store, RootField::Running);
    if t == 0 {
        0
    } else {
        field(store, t, TcbField::Id)
    }
}

/// The highest number of a task.
pub fn highest_of(store: &Store) -> u32
    ensures value { result ≡ highest_id_of (lists_in store.now).version }
    ensures most { result ≤ 63 }
{
    if root(store, RootField::Version) == 2 {
        63
    } else {
        20
    }
}

// The address of the first task with the number, or 0.
fn address_of(store: &Store, id: u32) -> u32
    requires { IsClaimed store.now }
    ensures { result ≡ address_with task_address task_id (lists_in store.now).tasks id }
{
    for t in tasks(store) {
        if field(store, t, TcbField::Id) == id {
            return t;
        }
    }
    0
}
