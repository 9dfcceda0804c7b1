// Pipes over runs.
ghost use Rattle.std.specs.Prelude.{◌≡◌, ◌≢◌, ◌≤◌, ℕ, Ok, Some, length};
ghost use Rattle.std.specs.List.{AllByRecursion};
ghost use Rattle.kernel_model.specs.KernelRecord.Kernel.{Kernel, Pipe};
ghost use Rattle.kernel_model.specs.KernelRecord.Pipes.{most_held, pipe_at};
ghost use Rattle.kernel_model.specs.KernelRecord.ValidKernel.{IsValid};
ghost use Rattle.resident_tasks.specs.PipeHandler.Histories.{History, IsHistoryOf, IsLawful, history_after, no_history, pipes_after};
ghost use Rattle.kernel_machine.specs.KernelSteps.Step.{run, step};
ghost use Rattle.kernel_machine.specs.KernelSteps.Stepped.{Stepped};
ghost use Rattle.kernel_machine.specs.MachineBoot.Boot.{HasKernel, boot};
ghost use Rattle.session_text.specs.declared.sessions.Session.{Session};
ghost use Rattle.tripos_machine.specs.PacketHistory.PipeRuns.{requests_of_run, requests_of_step};

/// A step leaves the pipes that its requests for pipes leave, one or none, and each is by a lawful name. Where the file handler has
/// not its turn it leaves the pipes as they are: so do guests, the shell, the console, the reporter of faults, devices and dispatch.
pub fn step_law()
    ensures step { (k : Kernel) → (step k).kernel.pipes ≡ pipes_after k.pipes (requests_of_step k) }
    ensures lawful { (k : Kernel) → AllByRecursion IsLawful (requests_of_step k) }
    ensures others { (k : Kernel) → k.lists.running ≢ 4 → (step k).kernel.pipes ≡ k.pipes }
{}

/// A run leaves the pipes that the requests of its steps leave, one after the other. So, however many the steps: where all that was
/// written to a pipe was what was read from it and then what it held, it is so after the run, with what its requests wrote and read;
/// and a pipe of a valid kernel holds at most 1,024 bytes then.
pub fn run_law()
    ensures run { (n : ℕ) (k : Kernel)
        → (run n k).kernel.pipes ≡ pipes_after k.pipes (requests_of_run n k) }
    ensures lawful { (n : ℕ) (k : Kernel) → AllByRecursion IsLawful (requests_of_run n k) }
    ensures bytes { (n i : ℕ) (k : Kernel) (h : History) → IsHistoryOf h (pipe_at k.pipes i)
        → IsHistoryOf (history_after i k.pipes h (requests_of_run n k))
        (pipe_at (run n k).kernel.pipes i) }
    ensures room { (n i : ℕ) (k : Kernel) (p : Pipe) → IsValid k
        → pipe_at (run n k).kernel.pipes i ≡ Some p
        → length p.held ≤ most_held }
{}

/// From a boot on nothing was written before the first step, since no pipe is there: so all that was ever written to a pipe since it
/// is there is what was read from it, and then what it holds.
pub fn boot_law()
    ensures { (n i : ℕ) (s : Session) (x : Stepped) → HasKernel s → boot s ≡ Ok x
        → IsHistoryOf (history_after i x.kernel.pipes no_history (requests_of_run n x.kernel))
        (pipe_at (run n x.kernel).kernel.pipes i) }
{}
