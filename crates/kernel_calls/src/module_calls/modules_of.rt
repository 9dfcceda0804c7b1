// Which modules tasks have.
ghost use Rattle.std.specs.Prelude.{◌≡◌, ◌≤◌, ◌+◌, length, slice_range};
ghost use Rattle.std.specs.List.{AllByRecursion, list_any};
ghost use Rattle.kernel_lists.specs.LinkedList.Places.{has};
ghost use Rattle.kernel_lists.specs.LinkedList.Walk.{CanWalk};
ghost use Rattle.kernel_lists.specs.TaskBlock.RootWords.{first_task};
ghost use Rattle.kernel_lists.specs.TaskBlock.TaskChain.{task_link, tasks_in};
ghost use Rattle.kernel_lists.specs.TaskBlock.Versions.{head_words};
ghost use Rattle.kernel_calls.specs.ModuleCalls.Private.ModuleFields.{IsTaskIn, module_fields};

use kernel_lists::{FIRST_GUEST, TcbField, field, module_at, most_modules, tasks};
use word_store::Store;

/// Whether a task has the module at m.
pub(crate) fn is_in_use(store: &Store, m: u32) -> bool
    requires chain { CanWalk store.now task_link first_task }
    requires tasks { AllByRecursion (IsTaskIn store.now) (tasks_in store.now) }
    ensures { result ≡ list_any (λ t. has m (module_fields store.now t)) (tasks_in store.now) }
{
    for t in tasks(store) {
        if has_module(store, t, m) {
            return true;
        }
    }
    false
}

fn has_module(store: &Store, t: u32, m: u32) -> bool
    requires { IsTaskIn store.now t }
    ensures { result ≡ has m (module_fields store.now t) }
{
    if field(store, t, TcbField::Module) == m {
        return true;
    }
    if field(store, t, TcbField::Id) < FIRST_GUEST {
        return false;
    }
    has_further_module(store, t, m)
}

// Whether the module is one of those of a guest after the first.
fn has_further_module(store: &Store, t: u32, m: u32) -> bool
    requires { t + head_words store.now ≤ length store.now }
    ensures { result
        ≡ has m (slice_range store.now (t + 23) (t + head_words store.now)) }
{
    for i in 2..most_modules(store) + 1 {
        if module_at(store, t, i) == m {
            return true;
        }
    }
    false
}
