// What a turn leaves.
ghost use Rattle.std.specs.Prelude.{◌≡◌, None, true};
ghost use Rattle.ram_disc.specs.Disc.{IsDisc};
ghost use Rattle.kernel_model.specs.KernelRecord.Between.{AreValidResidents};
ghost use Rattle.kernel_model.specs.KernelRecord.Kernel.{Kernel};
ghost use Rattle.kernel_model.specs.KernelRecord.Task.{is_guest_id};
ghost use Rattle.kernel_model.specs.KernelRecord.ValidKernel.{IsValid};
ghost use Rattle.kernel_model.specs.KernelRecord.ValidLists.{AreValid};
ghost use Rattle.kernel_calls.specs.CallAnswers.Callers.{HasCaller};
ghost use Rattle.kernel_model.specs.KernelDispatch.Dispatch.{CanDispatch};
ghost use Rattle.guest_turns.specs.GuestTurn.{numbers_of};
ghost use Rattle.kernel_model.specs.KernelRecord.Running.{RunsAlone};
ghost use Rattle.kernel_machine.specs.KernelSteps.Parts.{CanTurn, HasSameKeys, IsSameMachine, RunsFirst};
ghost use Rattle.kernel_machine.specs.KernelSteps.Step.{turn};
ghost use Rattle.kernel_machine.specs.KernelSteps.Stepped.{quietly};

/// Between steps the first ready task runs. Where that is a guest, it may make a call.
pub fn running_law()
    ensures runs { (k : Kernel) → IsValid k → k.stop ≡ None → RunsFirst k.lists k.regs }
    ensures calls { (k : Kernel) → AreValid k.lists → RunsFirst k.lists k.regs
        → is_guest_id k.lists.running ≡ true
        → HasCaller k.lists }
    ensures alone { (k : Kernel) → RunsFirst k.lists k.regs → RunsAlone k.lists }
{}

/// After a turn a dispatch may follow. The same task is the running one, and the ticks, the period, the version and whether
/// there are residents stay as they were; so do the keys. The rules of what residents keep hold again, if the disc is one. Where
/// nobody runs, the turn does nothing.
pub fn turn_law()
    ensures dispatch { (k : Kernel) → CanTurn k
        → CanDispatch (turn k).kernel.lists (turn k).kernel.regs }
    ensures numbers { (k : Kernel) → CanTurn k
        → numbers_of (turn k).kernel.lists ≡ numbers_of k.lists }
    ensures rules { (k : Kernel) → CanTurn k → IsDisc (turn k).kernel.disc
        → AreValidResidents (turn k).kernel }
    ensures same { (k : Kernel) → IsSameMachine k (turn k).kernel }
    ensures keys { (k : Kernel) → HasSameKeys k (turn k).kernel }
    ensures nobody { (k : Kernel) → k.lists.running ≡ 0 → turn k ≡ quietly k }
{}
