// What a step leaves.
ghost use Rattle.std.specs.Prelude.{◌≡◌, ◌≢◌, ◌+◌, ◌<◌, None};
ghost use Rattle.kernel_model.specs.KernelRecord.Ranges.{most_steps};
ghost use Rattle.kernel_model.specs.KernelRecord.Kernel.{Kernel};
ghost use Rattle.kernel_model.specs.KernelRecord.ValidKernel.{IsValid};
ghost use Rattle.kernel_machine.specs.KernelSteps.Parts.{IsTaken};
ghost use Rattle.kernel_machine.specs.KernelSteps.Step.{step};

/// A step that left valid lists, the plain words of them, and a disc, left a valid kernel, also where it stopped the machine.
pub fn step_law()
    ensures { (k : Kernel) → IsValid k → k.stop ≡ None
        → k.steps < most_steps
        → IsTaken k
        → IsValid (step k).kernel }
{}

/// A step in which neither the shell nor the file handler has its turn leaves the files, the streams and the pipes as they are.
pub fn files_law()
    ensures disc { (k : Kernel) → k.lists.running ≢ 1 → k.lists.running ≢ 4
        → (step k).kernel.disc ≡ k.disc }
    ensures pipes { (k : Kernel) → k.lists.running ≢ 1 → k.lists.running ≢ 4
        → (step k).kernel.pipes ≡ k.pipes }
{}

/// A step of a machine that has not stopped is one more, also where it stops the machine. The period stays, and so does the size of
/// the store.
pub fn count_law()
    ensures steps { (k : Kernel) → k.stop ≡ None → (step k).kernel.steps ≡ k.steps + 1 }
    ensures period { (k : Kernel) → IsValid k → (step k).kernel.lists.period ≡ k.lists.period }
    ensures size { (k : Kernel) → IsValid k → (step k).kernel.lists.size ≡ k.lists.size }
{}
