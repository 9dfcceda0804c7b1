// Turns, and runs.
ghost use Rattle.std.specs.Prelude.{◌≡◌, ◌+◌, ◌≤◌, None, ℕ};
ghost use Rattle.word_store.specs.Arithmetic.{signed};
ghost use Rattle.kernel_model.specs.KernelRecord.Kernel.{Kernel};
ghost use Rattle.kernel_model.specs.KernelRecord.Ranges.{most_steps};
ghost use Rattle.kernel_model.specs.KernelRecord.ValidKernel.{IsValid};
ghost use Rattle.kernel_machine.specs.KernelSteps.Step.{turn, with_step};
ghost use Rattle.tripos_machine.specs.PacketHistory.Queues.{Moves};
ghost use Rattle.tripos_machine.specs.PacketHistory.SentBy.{AreOfTurn};
ghost use Rattle.tripos_machine.specs.PacketHistory.HistoryLaw.{HistoryLaw};
ghost use Rattle.tripos_machine.specs.PacketHistory.Steps.{due_in};

/// Every turn moves packets as its events say.
pub fn turn_law()
    ensures { (k : Kernel) → IsValid k → k.stop ≡ None
        → Moves (due_in k) k.lists (turn (with_step k)).events (turn (with_step k)).kernel.lists }
{}

/// What a turn sends is from the task whose turn it is, and it takes nothing from the clock's queue.
pub fn senders_law()
    ensures { (k : Kernel) → IsValid k → k.stop ≡ None
        → AreOfTurn (signed k.lists.running) (turn (with_step k)).events }
{}

/// The history law, of every run of a valid kernel that takes no more steps than a machine may take.
pub fn history_law()
    ensures { (n : ℕ) (k : Kernel) → IsValid k → k.steps + n ≤ most_steps → HistoryLaw n k }
{}
