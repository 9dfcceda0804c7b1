// The calls that change one task leave the same words owned, so no keeper of kinds has to be told.
ghost use Rattle.std.specs.Prelude.{◌≡◌, List, ℕ};
ghost use Rattle.kernel_lists.specs.OwnedWords.Owned.{owners};
ghost use Rattle.kernel_model.specs.KernelRecord.HoldsLists.{HoldsLists};
ghost use Rattle.kernel_model.specs.KernelRecord.Lists.{Lists};
ghost use Rattle.kernel_model.specs.KernelRecord.Owned.{owned};
ghost use Rattle.kernel_calls.specs.CallAnswers.Callers.{HasCaller};
ghost use Rattle.kernel_calls.specs.TaskCalls.ChangePri.{change_pri};
ghost use Rattle.kernel_calls.specs.TaskCalls.HoldTask.{hold};
ghost use Rattle.kernel_calls.specs.TaskCalls.ReleaseTask.{release};
ghost use Rattle.kernel_calls.specs.TaskCalls.SetFlags.{set_flags};
ghost use Rattle.kernel_calls.specs.TaskCalls.TestFlags.{test_flags};

/// Each word has as many owners after such a call as before.
pub fn same_words_law()
    ensures hold { (s : List ℕ) (l : Lists) (id a : ℕ) → HoldsLists s l
        → owners a (owned (hold l id).lists) ≡ owners a (owned l) }
    ensures release { (s : List ℕ) (l : Lists) (id a : ℕ) → HoldsLists s l
        → owners a (owned (release l id).lists) ≡ owners a (owned l) }
    ensures set_flags { (s : List ℕ) (l : Lists) (id flags a : ℕ) → HoldsLists s l
        → owners a (owned (set_flags l id flags).lists) ≡ owners a (owned l) }
    ensures test_flags { (s : List ℕ) (l : Lists) (mask a : ℕ) → HoldsLists s l → HasCaller l
        → owners a (owned (test_flags l mask).lists) ≡ owners a (owned l) }
    ensures change_pri { (s : List ℕ) (l : Lists) (id pri a : ℕ) → HoldsLists s l
        → owners a (owned (change_pri l id pri).lists) ≡ owners a (owned l) }
{}
