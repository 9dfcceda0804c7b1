// What the line on tasks that wait for ever says of the steps to come.
ghost use Rattle.std.specs.Prelude.{◌≡◌, true, ℕ};
ghost use Rattle.kernel_machine.specs.KernelSteps.Step.{run};
ghost use Rattle.kernel_model.specs.KernelRecord.Kernel.{Kernel};
ghost use Rattle.kernel_model.specs.KernelRecord.ValidKernel.{IsValid};
ghost use Rattle.state_text.specs.Deadlock.{LeavesStill, deadlock_text, is_still};
ghost use Rattle.state_text.specs.Runner.{has_keys};
ghost use Rattle.tripos_machine.specs.State.State.{Full};

/// Where nobody runs and no device can send a packet back, however many steps are taken leave all lists as they were but for the ticks:
/// no packet is sent or taken, no task runs, and nothing is written. So the tasks that wait or are held then do so for ever, and the
/// line that says it stays the same.
pub fn deadlock_law()
    ensures leaves { (n : ℕ) (k : Kernel) → IsValid k
        → is_still k.lists (has_keys (Full k)) ≡ true
        → LeavesStill k (run n k) }
    ensures line { (n : ℕ) (k : Kernel) → IsValid k
        → is_still k.lists (has_keys (Full k)) ≡ true
        → deadlock_text (Full (run n k).kernel) ≡ deadlock_text (Full k) }
{}
