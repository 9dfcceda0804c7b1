// What a dispatch leaves.
ghost use Rattle.std.specs.Prelude.{◌≡◌, List, ℕ};
ghost use Rattle.word_store.specs.declared.registers.Regs.{Regs};
ghost use Rattle.kernel_model.specs.KernelRecord.Lists.{Lists};
ghost use Rattle.kernel_model.specs.KernelRecord.ValidLists.{AreValid};
ghost use Rattle.kernel_model.specs.KernelDispatch.Dispatch.{CanDispatch, dispatched};
ghost use Rattle.guest_turns.specs.GuestTurn.{numbers_of};
ghost use Rattle.kernel_machine.specs.KernelSteps.Parts.{RunsFirst};

/// After a dispatch that left valid lists the first ready task runs, its field alone says so, C is a byte, and where no guest
/// runs the registers are 0. The ticks, the period, the version and whether there are residents stay as they were.
pub fn dispatch_law()
    ensures runs { (words : List ℕ) (l : Lists) (r : Regs) → CanDispatch l r
        → AreValid (dispatched words l r).lists
        → RunsFirst (dispatched words l r).lists (dispatched words l r).regs }
    ensures numbers { (words : List ℕ) (l : Lists) (r : Regs)
        → numbers_of (dispatched words l r).lists
        ≡ record (numbers_of l) { running = (dispatched words l r).lists.running } }
{}
