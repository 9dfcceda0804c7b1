// What is kept where faults are recorded and reported.
ghost use Rattle.std.specs.Prelude.{◌≡◌, ℕ, List};
ghost use Rattle.word_store.specs.declared.registers.Regs.{Regs};
ghost use Rattle.instruction_set.specs.declared.Fault.{Fault};
ghost use Rattle.kernel_model.specs.KernelRecord.Between.{AreValidFaults};
ghost use Rattle.kernel_model.specs.KernelRecord.Lists.{Lists};
ghost use Rattle.kernel_model.specs.KernelRecord.ValidLists.{AreValid};
ghost use Rattle.kernel_model.specs.KernelDispatch.Dispatch.{CanDispatch};
ghost use Rattle.resident_tasks.specs.ResidentRequests.Requests.{RunsResident};
ghost use Rattle.kernel_model.specs.declared.kernel_record.numbers.TheConstants.{REPORTER};
ghost use Rattle.resident_tasks.specs.FaultReporter.FaultTurns.{fault_turn};
ghost use Rattle.resident_tasks.specs.FaultReporter.Recorded.{CanRecord, recorded};

/// The fault packet waits exactly where some fault was not reported yet, from a guest with such a fault: also after a fault was
/// recorded, and after a turn of the task that reports faults.
pub fn faults_law()
    ensures recorded { (l : Lists) (f : Fault) → CanRecord l f → AreValidFaults l
        → AreValidFaults (recorded f l) }
    ensures reported { (s : List ℕ) (l : Lists) → AreValid l → RunsResident l → l.running ≡ REPORTER
        → AreValidFaults l → AreValidFaults (fault_turn s l).lists }
{}

/// Where a dispatch may follow, it may follow a fault that was recorded, and a turn of the task that reports faults.
pub fn dispatch_law()
    ensures recorded { (l : Lists) (f : Fault) (r : Regs) → CanDispatch l r
        → CanDispatch (recorded f l) r }
    ensures reported { (s : List ℕ) (l : Lists) (r : Regs) → CanDispatch l r
        → CanDispatch (fault_turn s l).lists r }
{}
