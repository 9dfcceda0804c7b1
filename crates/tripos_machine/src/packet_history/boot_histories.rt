// Boots, and runs from them.
ghost use Rattle.std.specs.Prelude.{◌≡◌, ◌≤◌, None, Ok, ℕ};
ghost use Rattle.kernel_lists.specs.declared.packet_queue.events.KernelEvent.{KernelEvent};
ghost use Rattle.kernel_model.specs.KernelRecord.Ranges.{most_steps};
ghost use Rattle.kernel_model.specs.KernelRecord.ValidKernel.{IsValid};
ghost use Rattle.session_text.specs.declared.sessions.Session.{Session};
ghost use Rattle.kernel_machine.specs.KernelSteps.Stepped.{Stepped};
ghost use Rattle.kernel_machine.specs.MachineBoot.Boot.{HasKernel, boot};
ghost use Rattle.tripos_machine.specs.EventHistory.Ledger.{Follows};
ghost use Rattle.tripos_machine.specs.PacketHistory.Queues.{ledger_of, timed_by};
ghost use Rattle.tripos_machine.specs.PacketHistory.Booted.{BootHistory, no_packets};

/// The kernel that a session boots is valid, and has not stopped.
pub fn valid_law()
    ensures valid { (s : Session) (x : Stepped) → HasKernel s → boot s ≡ Ok x → IsValid x.kernel }
    ensures goes { (s : Session) (x : Stepped) → HasKernel s → boot s ≡ Ok x
        → x.kernel.stop ≡ None }
{}

/// From no packets the events of a boot lead to the queues of the kernel that it leaves.
pub fn boot_law()
    ensures { (due : KernelEvent → ℕ) (s : Session) (x : Stepped) → HasKernel s → boot s ≡ Ok x
        → Follows (timed_by due x.events) no_packets (ledger_of x.kernel.lists) }
{}

/// The history law from a boot on: the events of the boot, and then those of the steps of a run that takes no more than a machine may
/// take.
pub fn history_law()
    ensures { (n : ℕ) (s : Session) (x : Stepped) → HasKernel s → boot s ≡ Ok x → n ≤ most_steps
        → BootHistory n x }
{}
