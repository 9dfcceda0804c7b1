// What a turn keeps, so that a dispatch may follow.
ghost use Rattle.std.specs.Prelude.{◌≡◌, ◌<◌, List, length, ℕ};
ghost use Rattle.word_store.specs.declared.registers.Regs.{Regs};
ghost use Rattle.instruction_set.specs.declared.Fault.{Fault};
ghost use Rattle.kernel_model.specs.KernelRecord.Lists.{Lists};
ghost use Rattle.kernel_calls.specs.CallAnswers.Callers.{HasCaller};
ghost use Rattle.kernel_model.specs.KernelDispatch.Dispatch.{CanDispatch};
ghost use Rattle.guest_turns.specs.GuestTurn.{IsUntouched, numbers_of, turn_without_reporter};
ghost use Rattle.kernel_model.specs.KernelRecord.Running.{RunsAlone};
ghost use Rattle.guest_turns.specs.declared.turns.TurnEnd.TheVariants.{Faults};

/// However a turn ends: the same task is the running one, no other has the field of one that runs, and C is a byte. So a
/// dispatch may follow. The ticks, the period, the version and whether there are residents stay as they were.
pub fn dispatch_law()
    ensures dispatch { (s : List ℕ) (l : Lists) (r : Regs) → HasCaller l → RunsAlone l
        → r.c < 256
        → CanDispatch (turn_without_reporter s l r).lists (turn_without_reporter s l r).regs }
    ensures numbers { (s : List ℕ) (l : Lists) (r : Regs) → RunsAlone l
        → numbers_of (turn_without_reporter s l r).lists ≡ numbers_of l }
{}

/// A turn that ends with a fault changes nothing, shows nothing and notes nothing.
pub fn fault_law()
    ensures { (s : List ℕ) (l : Lists) (r : Regs) (f : Fault)
        → (turn_without_reporter s l r).ends ≡ Faults f
        → IsUntouched s l r (turn_without_reporter s l r) }
{}

/// A turn leaves as many words as there were.
pub fn size_law()
    ensures { (s : List ℕ) (l : Lists) (r : Regs)
        → length (turn_without_reporter s l r).words ≡ length s }
{}
