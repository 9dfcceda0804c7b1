// Calls and turns of guests that leave valid lists.
ghost use Rattle.std.specs.Prelude.{List, ℕ};
ghost use Rattle.word_store.specs.declared.registers.Regs.{Regs};
ghost use Rattle.kernel_model.specs.KernelRecord.HoldsLists.{HoldsLists};
ghost use Rattle.kernel_model.specs.KernelRecord.Image.{image};
ghost use Rattle.kernel_model.specs.KernelRecord.Kernel.{Kernel};
ghost use Rattle.kernel_model.specs.KernelRecord.Lists.{Lists};
ghost use Rattle.kernel_model.specs.KernelRecord.ValidLists.{AreValid};
ghost use Rattle.kernel_calls.specs.CallAnswers.Callers.{HasCaller};
ghost use Rattle.kernel_calls.specs.Calls.{kernel_call};
ghost use Rattle.kernel_machine.specs.KernelSteps.GuestSteps.{guest_step};

/// Whatever call the running guest makes, refused or not, it leaves valid lists.
pub fn call_law()
    ensures { (s : List ℕ) (l : Lists) (r : Regs) → HoldsLists s l → HasCaller l → AreValid (kernel_call s l r).lists }
{}

/// So does its turn, whatever it does: an instruction, a call, the end of its function, or a fault, which may be recorded.
pub fn guest_law()
    ensures { (k : Kernel) → HoldsLists (image k) k.lists → HasCaller k.lists → AreValid (guest_step k).kernel.lists }
{}
