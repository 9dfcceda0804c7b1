// The words of a task's coroutines that follow from others.
ghost use Rattle.std.specs.Prelude.{◌≡◌, ◌↔◌, ◌+◌, IsTrue, slice_index};
ghost use Rattle.std.specs.List.{AllByRecursion};
ghost use Rattle.kernel_lists.specs.OwnedWords.Owned.{Holds};
ghost use Rattle.kernel_lists.specs.TaskBlock.Lists.{coroutines_in};
ghost use Rattle.kernel_lists.specs.Coroutines.CoroutineExchanges.{words_of_coroutines};
ghost use Rattle.kernel_model.specs.KernelRecord.Recovered.{coroutines_of};
ghost use Rattle.kernel_check.specs.ListPasses.Private.CanPass.{CanPass};
ghost use Rattle.kernel_check.specs.ListPasses.Frames.{HasFrame, HasParent};

use kernel_lists::{TcbField, coroutine_list, field};
use word_store::{Store, word_at};

/// Whether the words 17 to 20 of the task block at t, and the words of its coroutines, are right, where these have their parents.
pub(crate) fn holds_frames(store: &Store, t: u32) -> bool
    requires can { CanPass store.now t }
    requires parents { AllByRecursion (HasParent store.now t) (coroutines_in store.now t) }
    ensures { IsTrue result ↔ Holds store.now (words_of_coroutines t (coroutines_of store.now t)) }
{
    let current = field(store, t, TcbField::CurrentCo);
    if current != 0 && current == t {
        return false;
    }
    for c in coroutine_list(store, t) {
        if !has_frame(store, c) {
            return false;
        }
    }
    true
}

// Whether the words of the coroutine at c are right, but for its parent.
fn has_frame(store: &Store, c: u32) -> bool
    ensures { IsTrue result ↔ HasFrame store.now c }
{
    if word_at(store, c, 5) != c {
        return false;
    }
    if word_at(store, c, 7) != 0 {
        return false;
    }
    if word_at(store, c, 8) != 0 {
        return false;
    }
    word_at(store, c, 9) == word_at(store, c, 3)
}
