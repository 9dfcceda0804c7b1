// Which coroutines a task has, and which of them have a parent.
ghost use Rattle.std.specs.Prelude.{◌≡◌, true};
ghost use Rattle.kernel_lists.specs.Coroutines.Coroutines.{HasCoroutines};
ghost use Rattle.kernel_lists.specs.Coroutines.Refusals.{has_parent, idle_answer, is_known};

use crate::coroutine_lists::ends::CoEnd;
use crate::coroutine_lists::switch::PARENT;
use crate::task_block::coroutine_list;
use word_store::{Store, word_at};

/// Whether c is a coroutine of the task at t that has no parent, as one has to be that is called or deleted.
pub fn check_idle(store: &Store, t: u32, c: u32) -> Result<(), CoEnd>
    requires { HasCoroutines store.now t }
    ensures { result ≡ idle_answer store.now t c }
{
    if !is_known(store, t, c) {
        return Err(CoEnd::Unknown);
    }
    if has_parent(store, t, c) {
        return Err(CoEnd::HasParent);
    }
    Ok(())
}

// Whether c is a coroutine of the task at t.
pub(crate) fn is_known(store: &Store, t: u32, c: u32) -> bool
    requires { HasCoroutines store.now t }
    ensures { result ≡ is_known store.now t c }
{
    for known in coroutine_list(store, t) {
        if c == known {
            return true;
        }
    }
    false
}

// Whether the coroutine c of the task at t has a parent.
pub(crate) fn has_parent(store: &Store, t: u32, c: u32) -> bool
    requires coroutines { HasCoroutines store.now t }
    requires known { is_known store.now t c ≡ true }
    ensures { result ≡ has_parent store.now t c }
{
    word_at(store, c, PARENT) != 0
}
