// The shell clears up.
ghost use Rattle.std.specs.Prelude.{◌≡◌, ◌≤◌};
ghost use Rattle.kernel_model.specs.KernelRecord.Lists.{Lists};
ghost use Rattle.kernel_model.specs.KernelRecord.StoreWithLists.{store_with_lists};
ghost use Rattle.shell.specs.ShellPrograms.ClearedTasks.{cleared, cleared_at};
ghost use Rattle.shell.specs.ShellPrograms.StoresWithLists.{RepresentsStoreWithLists};
ghost use Rattle.kernel_model.specs.KernelRecord.Running.{RunsAlive};
ghost use Rattle.kernel_model.specs.KernelRecord.ChangedStore.{HasKeeper};

use kernel_calls::{delete_task, guest, unload_module};
use kernel_lists::{FIRST_GUEST, TcbField, field, highest_id};
use kernel_model::KindKeeper;
use kernel_model::numbers::SHELL;
use word_store::Store;

/// Deletes the dead tasks that the shell has made, in rising id, and unloads of each the first module. What the calls refuse stays,
/// as a task of which a packet still waits for the shell.
pub fn clear_up<Q: KindKeeper>(store: &mut Store, kinds: &mut Q)
    requires { (l : Lists)
        × HasKeeper store.old (Q.tells kinds.old) (Q.room kinds.old) l × RunsAlive l }
    ensures cleared { (l : Lists)
        → HasKeeper store.old (Q.tells kinds.old) (Q.room kinds.old) l → RunsAlive l
        → RepresentsStoreWithLists store.new (Q.tells kinds.new) (Q.room kinds.new)
        (cleared (store_with_lists store.old l)) }
    ensures room { Q.room kinds.new ≡ Q.room kinds.old }
{
    for id in FIRST_GUEST..highest_id(store) + 1 {
        clear_task(store, kinds, id);
    }
}

// Deletes the task with the number, where there is one that the shell has made, and unloads its first module.
fn clear_task<Q: KindKeeper>(store: &mut Store, kinds: &mut Q, id: u32)
    requires guest { FIRST_GUEST ≤ id }
    requires holds { (l : Lists)
        × HasKeeper store.old (Q.tells kinds.old) (Q.room kinds.old) l × RunsAlive l }
    ensures cleared { (l : Lists)
        → HasKeeper store.old (Q.tells kinds.old) (Q.room kinds.old) l → RunsAlive l
        → RepresentsStoreWithLists store.new (Q.tells kinds.new) (Q.room kinds.new)
        (cleared_at id (store_with_lists store.old l)) }
    ensures room { Q.room kinds.new ≡ Q.room kinds.old }
{
    let Ok(task) = guest(store, id) else {
        return;
    };
    if field(store, task, TcbField::Maker) != SHELL {
        return;
    }
    let module = field(store, task, TcbField::Module);
    if delete_task(store, kinds, id).is_ok() {
        let _refusal = unload_module(store, kinds, module);
    }
}
