// What a refused call leaves.
ghost use Rattle.std.specs.Prelude.{◌≡◌, ℕ, List};
ghost use Rattle.word_store.specs.declared.registers.Regs.{Regs};
ghost use Rattle.kernel_model.specs.KernelRecord.ChangedStore.{IsChanged};
ghost use Rattle.kernel_model.specs.KernelRecord.HoldsLists.{HoldsLists};
ghost use Rattle.kernel_model.specs.KernelRecord.Lists.{Lists};
ghost use Rattle.kernel_calls.specs.Calls.{kernel_call};
ghost use Rattle.kernel_calls.specs.Refusals.{IsRefused, refused};

/// A refused call sets A to 0, B to the code of the first of its tests that fails, and PC past the call. It changes no other
/// register, no list and no word of the store, shows nothing and has no events.
pub fn refusal_law()
    ensures call { (s : List ℕ) (l : Lists) (r : Regs) (code : ℕ) → IsRefused s l r code
        → kernel_call s l r ≡ refused code l r }
    ensures store { (s t : List ℕ) (l : Lists) (r : Regs) (code : ℕ) → HoldsLists s l
        → IsChanged s t (refused code l r).lists (refused code l r).plain → t ≡ s }
{}
