// What moves packets in a step.
ghost use Rattle.std.specs.Prelude.{◌≡◌, List, None, [], negsuc, ℕ};
ghost use Rattle.std.specs.List.{AllByRecursion};
ghost use Rattle.kernel_lists.specs.declared.packet_queue.events.KernelEvent.{KernelEvent};
ghost use Rattle.kernel_model.specs.KernelRecord.Kernel.{Kernel};
ghost use Rattle.kernel_model.specs.KernelRecord.Lists.{Lists};
ghost use Rattle.kernel_model.specs.KernelRecord.ValidKernel.{IsValid};
ghost use Rattle.kernel_model.specs.KernelRecord.ValidLists.{AreValid};
ghost use Rattle.kernel_devices.specs.Tick.{ticked};
ghost use Rattle.kernel_devices.specs.Keys.{met};
ghost use Rattle.kernel_devices.specs.Printed.{finished};
ghost use Rattle.kernel_machine.specs.KernelSteps.Step.{dispatch, key, output, run, step, tick, turn, with_step};
ghost use Rattle.tripos_machine.specs.EventHistory.Acceptances.{taken_from};
ghost use Rattle.tripos_machine.specs.EventHistory.Ledger.{clock, events_of};
ghost use Rattle.tripos_machine.specs.EventHistory.QueueHistory.{QueueHistory};
ghost use Rattle.tripos_machine.specs.PacketHistory.Queues.{Moves, ledger_of};
ghost use Rattle.tripos_machine.specs.PacketHistory.Senders.{AreReturns, HoldSenders, IsNoAcceptance, due_now, events_of_parts, pairs_at_clock};
ghost use Rattle.tripos_machine.specs.PacketHistory.Steps.{EachStep, StepMoves, history};

/// Each device moves packets as its events say.
pub fn device_law()
    ensures keys { (due : KernelEvent → ℕ) (bytes : List ℕ) (l : Lists) → AreValid l
        → Moves due l (met bytes l).events (met bytes l).lists }
    ensures output { (due : KernelEvent → ℕ) (l : Lists) → AreValid l
        → Moves due l (finished l).events (finished l).lists }
    ensures tick { (due : KernelEvent → ℕ) (l : Lists) → AreValid l
        → Moves due l (ticked l).events (ticked l).lists }
{}

/// Where its turn leaves valid lists and moves packets as its events say, so does the whole step.
pub fn step_law()
    ensures { (due : KernelEvent → ℕ) (k : Kernel) → AreValid (turn (with_step k)).kernel.lists
        → Moves due k.lists (turn (with_step k)).events (turn (with_step k)).kernel.lists
        → Moves due k.lists (step k).events (step k).kernel.lists }
{}

/// Where each step of a run moves packets as its events say, the events of the run are a history of the queues.
pub fn run_law()
    ensures events { (n : ℕ) (k : Kernel) → events_of (history n k) ≡ (run n k).events }
    ensures history { (n : ℕ) (k : Kernel) → AreValid k.lists → EachStep StepMoves n k
        → QueueHistory (ledger_of k.lists) (history n k) (ledger_of (run n k).kernel.lists) }
{}

/// A step's events are those of its parts. Each device returns packets one after the other, a tick takes exactly those that are due
/// in the order of the queue, and no other part but the turn takes any from the clock's queue. A dispatch accepts none.
pub fn parts_law()
    ensures parts { (k : Kernel) → k.stop ≡ None → (step k).events ≡ events_of_parts k }
    ensures clock { (k : Kernel) → AreReturns (negsuc 0) (tick k).events }
    ensures keyboard { (k : Kernel) → AreReturns (negsuc 1) (key k).events }
    ensures output { (k : Kernel) → AreReturns (negsuc 2) (output k).events }
    ensures takes { (k : Kernel) → taken_from clock (tick k).events
        ≡ pairs_at_clock (due_now k k.lists.clock) }
    ensures dispatch { (k : Kernel) → AllByRecursion IsNoAcceptance (dispatch k).events }
    ensures keys_take { (k : Kernel) → taken_from clock (key k).events ≡ [] }
    ensures output_takes { (k : Kernel) → taken_from clock (output k).events ≡ [] }
    ensures dispatch_takes { (k : Kernel) → taken_from clock (dispatch k).events ≡ [] }
{}

/// While a packet is queued its word 1 is its sender.
pub fn between_law()
    ensures { (k : Kernel) → IsValid k → HoldSenders k }
{}
