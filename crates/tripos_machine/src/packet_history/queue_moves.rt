// What moves packets.
ghost use Rattle.std.specs.Prelude.{◌≡◌, ◌+◌, List, true, ℕ};
ghost use Rattle.word_store.specs.Arithmetic.{signed};
ghost use Rattle.kernel_lists.specs.declared.packet_queue.events.KernelEvent.{KernelEvent};
ghost use Rattle.kernel_model.specs.KernelRecord.Lists.{Lists, has_task};
ghost use Rattle.kernel_model.specs.KernelRecord.ValidLists.{AreValid};
ghost use Rattle.kernel_calls.specs.PacketCalls.Dqpkt.{dqpkt};
ghost use Rattle.kernel_calls.specs.PacketCalls.Qpkt.{qpkt};
ghost use Rattle.kernel_calls.specs.PacketCalls.TaskWait.{taskwait};
ghost use Rattle.tripos_machine.specs.EventHistory.Ledger.{AreOnce, NeverFall, clock};
ghost use Rattle.tripos_machine.specs.PacketHistory.Queues.{IsDueIn, Moves, ledger_of};
ghost use Rattle.tripos_machine.specs.PacketHistory.SentBy.{AreOfTurn};

/// In valid lists no packet is queued twice, and due ticks never fall at the clock.
pub fn valid_law()
    ensures once { (l : Lists) → AreValid l → AreOnce (ledger_of l) }
    ensures falls { (l : Lists) → AreValid l → NeverFall (ledger_of l clock) }
{}

/// The calls that send packets, take them and take them back move them as their events say. A packet that is sent to the clock is
/// due as many ticks from now as its word 5 says.
pub fn call_law()
    ensures qpkt { (due : KernelEvent → ℕ) (s : List ℕ) (l : Lists) (p : ℕ) → AreValid l
        → IsDueIn due s l p
        → Moves due l (qpkt s l p).events (qpkt s l p).lists }
    ensures taskwait { (due : KernelEvent → ℕ) (l : Lists) → AreValid l
        → has_task l.running l.tasks ≡ true
        → Moves due l (taskwait l).events (taskwait l).lists }
    ensures dqpkt { (due : KernelEvent → ℕ) (l : Lists) (id p : ℕ) → AreValid l
        → has_task l.running l.tasks ≡ true
        → Moves due l (dqpkt l id p).events (dqpkt l id p).lists }
{}

/// What they accept is from the task that calls, and they take nothing from the clock's queue.
pub fn senders_law()
    ensures qpkt { (l : Lists) (s : List ℕ) (p : ℕ) → AreValid l
        → AreOfTurn (signed l.running) (qpkt s l p).events }
    ensures taskwait { (l : Lists) → AreValid l → has_task l.running l.tasks ≡ true
        → AreOfTurn (signed l.running) (taskwait l).events }
    ensures dqpkt { (l : Lists) (id p : ℕ) → AreValid l
        → AreOfTurn (signed l.running) (dqpkt l id p).events }
{}
