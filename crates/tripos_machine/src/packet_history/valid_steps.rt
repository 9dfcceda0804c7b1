// Steps of valid kernels.
ghost use Rattle.std.specs.Prelude.{◌≡◌, ◌+◌, ◌<◌, ◌≤◌, ℕ, List, None};
ghost use Rattle.word_store.specs.declared.registers.Regs.{Regs};
ghost use Rattle.ram_disc.specs.Disc.{IsDisc};
ghost use Rattle.kernel_model.specs.KernelRecord.Kernel.{Kernel};
ghost use Rattle.kernel_model.specs.KernelRecord.Lists.{Lists};
ghost use Rattle.kernel_model.specs.KernelRecord.Ranges.{most_steps};
ghost use Rattle.kernel_model.specs.KernelRecord.ValidKernel.{IsValid};
ghost use Rattle.kernel_model.specs.KernelRecord.ValidLists.{AreValid};
ghost use Rattle.kernel_model.specs.KernelDispatch.Dispatch.{CanDispatch, dispatched};
ghost use Rattle.kernel_machine.specs.KernelSteps.Step.{run, step, turn};

/// The turn of whoever runs leaves a valid disc.
pub fn disc_law()
    ensures { (k : Kernel) → IsDisc k.disc → IsDisc (turn k).kernel.disc }
{}

/// A dispatch leaves valid lists.
pub fn dispatch_law()
    ensures { (words : List ℕ) (l : Lists) (r : Regs) → AreValid l → CanDispatch l r
        → AreValid (dispatched words l r).lists }
{}

/// A step of a valid kernel that has not stopped leaves a valid kernel, also where it stops it. The steps taken are no more than a
/// machine may take.
pub fn step_law()
    ensures { (k : Kernel) → IsValid k → k.stop ≡ None → k.steps < most_steps
        → IsValid (step k).kernel }
{}

/// So a run leaves a valid kernel.
pub fn run_law()
    ensures { (n : ℕ) (k : Kernel) → IsValid k → k.steps + n ≤ most_steps
        → IsValid (run n k).kernel }
{}
