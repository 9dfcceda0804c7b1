// The turn of a guest.
ghost use Rattle.std.specs.Prelude.{◌≡◌, List, true, ℕ};
ghost use Rattle.word_store.specs.Arithmetic.{signed};
ghost use Rattle.word_store.specs.declared.registers.Regs.{Regs};
ghost use Rattle.kernel_lists.specs.declared.packet_queue.events.KernelEvent.{KernelEvent};
ghost use Rattle.kernel_model.specs.KernelRecord.Lists.{Lists, has_task};
ghost use Rattle.kernel_model.specs.KernelRecord.ValidLists.{AreValid};
ghost use Rattle.guest_turns.specs.GuestTurn.{turn_without_reporter};
ghost use Rattle.tripos_machine.specs.PacketHistory.Queues.{IsDueIn, Moves};
ghost use Rattle.tripos_machine.specs.PacketHistory.SentBy.{AreOfTurn};

/// A guest's turn moves packets as its events say, whatever call it makes. What it sends is from the guest, and it takes nothing from
/// the clock's queue.
pub fn guest_law()
    ensures moves { (due : KernelEvent → ℕ) (s : List ℕ) (l : Lists) (r : Regs) → AreValid l
        → has_task l.running l.tasks ≡ true
        → ((p : ℕ) → IsDueIn due s l p)
        → Moves due l (turn_without_reporter s l r).events (turn_without_reporter s l r).lists }
    ensures senders { (due : KernelEvent → ℕ) (s : List ℕ) (l : Lists) (r : Regs) → AreValid l
        → has_task l.running l.tasks ≡ true
        → ((p : ℕ) → IsDueIn due s l p)
        → AreOfTurn (signed l.running) (turn_without_reporter s l r).events }
{}
