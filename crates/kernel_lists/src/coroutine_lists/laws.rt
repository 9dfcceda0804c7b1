// Laws of coroutines.
ghost use Rattle.std.specs.Prelude.{◌≡◌, ◌≢◌, ◌++◌, ◌∷◌, List, Ok, map, ℕ};
ghost use Rattle.word_store.specs.declared.registers.Regs.{Regs};
ghost use Rattle.kernel_lists.specs.Coroutines.Active.{active_in};
ghost use Rattle.kernel_lists.specs.Coroutines.Coroutines.{HasCoroutines};
ghost use Rattle.kernel_lists.specs.Coroutines.CoroutineExchanges.{CallExchange, CreateExchange, DeleteExchange, EndExchange, HoldsCoroutines, ResumeExchange, TaskCoroutines, WaitExchange, with_list};
ghost use Rattle.kernel_lists.specs.Coroutines.CoroutineWords.{current_in};
ghost use Rattle.kernel_lists.specs.Coroutines.Creation.{IsCreated, deleted};
ghost use Rattle.kernel_lists.specs.Coroutines.HeldCoroutines.{Coroutine, HeldCoroutines, address_of};
ghost use Rattle.kernel_lists.specs.Coroutines.Refusals.{idle_answer, resume_answer, wait_answer};
ghost use Rattle.kernel_lists.specs.Coroutines.Switch.{called, resumed, returned, waited};
ghost use Rattle.kernel_lists.specs.TaskBlock.Lists.{coroutines_in};

/// Where a tiled store holds the words of coroutines, each alone in its block, with the head in the task that leads to them,
/// these are the task's coroutines, and those are active whose parents are given.
pub fn held_coroutines_law()
    ensures valid { (s : List ℕ) (t : ℕ) (cs : List Coroutine) (act : List ℕ)
        → HeldCoroutines s t cs act
        → HasCoroutines s t }
    ensures coroutines { (s : List ℕ) (t : ℕ) (cs : List Coroutine) (act : List ℕ)
        → HeldCoroutines s t cs act
        → coroutines_in s t ≡ map address_of cs }
    ensures active { (s : List ℕ) (t : ℕ) (cs : List Coroutine) (act : List ℕ)
        → HeldCoroutines s t cs act
        → active_in s t ≡ act }
{}

/// What a switch to another coroutine, or to the root, does to the words that the coroutines of a task own.
pub fn switch_words_law()
    ensures call { (s : List ℕ) (t : ℕ) (k : TaskCoroutines) (regs : Regs) (c : ℕ)
        → HoldsCoroutines s t k → idle_answer s t c ≡ Ok tt
        → CallExchange s (called s t regs c) t k c regs.p regs.pc }
    ensures resume { (s : List ℕ) (t : ℕ) (k : TaskCoroutines) (regs : Regs) (c : ℕ)
        → HoldsCoroutines s t k → resume_answer s t c ≡ Ok tt
        → ResumeExchange s (resumed s t regs c) t k c regs.p regs.pc }
    ensures wait { (s : List ℕ) (t : ℕ) (k : TaskCoroutines) (p pc : ℕ)
        → HoldsCoroutines s t k → wait_answer s t ≡ Ok tt
        → WaitExchange s (waited s t p pc) t k p pc }
    ensures ended { (s : List ℕ) (t : ℕ) (k : TaskCoroutines)
        → HoldsCoroutines s t k → current_in s t ≢ 0
        → EndExchange s (returned s t) t k }
{}

/// What a create and a delete do to these words, and to those that blocks own.
pub fn coroutine_words_law()
    ensures create { (s v : List ℕ) (t : ℕ) (k : TaskCoroutines) (c entry u : ℕ)
        → HoldsCoroutines s t k → IsCreated s v t c entry u
        → CreateExchange s v t k c entry u }
    ensures delete { (s : List ℕ) (t : ℕ) (k : TaskCoroutines)
        (front : List Coroutine) (x : Coroutine) (back : List Coroutine)
        → HoldsCoroutines s t (with_list (front ++ x ∷ back) k)
        → idle_answer s t x.address ≡ Ok tt
        → DeleteExchange s (deleted s t x.address) t k front x back }
{}
