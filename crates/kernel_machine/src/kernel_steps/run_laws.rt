// Runs.
ghost use Rattle.std.specs.Prelude.{◌≡◌, ◌≢◌, ◌+◌, ◌≤◌, None, ℕ};
ghost use Rattle.kernel_model.specs.KernelRecord.Kernel.{Kernel};
ghost use Rattle.kernel_machine.specs.KernelSteps.Step.{run};
ghost use Rattle.kernel_machine.specs.KernelSteps.Stepped.{and_then, quietly};

/// A run may be cut in two. A machine that has stopped stays as it is, and a run takes at most its steps.
pub fn run_law()
    ensures more { (m n : ℕ) (k : Kernel) → run (m + n) k ≡ and_then (run m k) (run n) }
    ensures stopped { (n : ℕ) (k : Kernel) → k.stop ≢ None → run n k ≡ quietly k }
    ensures steps { (n : ℕ) (k : Kernel) → (run n k).kernel.steps ≤ k.steps + n }
{}
