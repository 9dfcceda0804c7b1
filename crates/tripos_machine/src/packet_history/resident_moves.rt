// The turns of residents.
ghost use Rattle.std.specs.Prelude.{◌≡◌, List, true, ℕ};
ghost use Rattle.word_store.specs.Arithmetic.{signed};
ghost use Rattle.instruction_set.specs.declared.Fault.{Fault};
ghost use Rattle.ram_disc.specs.Disc.{Disc};
ghost use Rattle.kernel_lists.specs.declared.packet_queue.events.KernelEvent.{KernelEvent};
ghost use Rattle.kernel_model.specs.KernelRecord.HoldsLists.{HoldsLists};
ghost use Rattle.kernel_model.specs.KernelRecord.Image.{image};
ghost use Rattle.kernel_model.specs.KernelRecord.Kernel.{Console, Kernel, Shell};
ghost use Rattle.kernel_model.specs.KernelRecord.Lists.{Lists, has_task};
ghost use Rattle.kernel_model.specs.KernelRecord.ValidLists.{AreValid};
ghost use Rattle.kernel_model.specs.declared.kernel_record.numbers.TheConstants.{CONSOLE, REPORTER, SHELL};
ghost use Rattle.resident_tasks.specs.ResidentRequests.Requests.{RunsResident, TakesRequest};
ghost use Rattle.resident_tasks.specs.ResidentRequests.Turns.{Served, request_turn};
ghost use Rattle.resident_tasks.specs.declared.resident_requests.requests.Request.{Request};
ghost use Rattle.resident_tasks.specs.FaultReporter.FaultTurns.{fault_turn};
ghost use Rattle.resident_tasks.specs.FaultReporter.Recorded.{recorded, recorded_events};
ghost use Rattle.resident_tasks.specs.ConsoleHandler.ConsoleTurn.{console_turn};
ghost use Rattle.shell.specs.ShellTurn.{shell_turn};
ghost use Rattle.kernel_machine.specs.KernelSteps.ResidentSteps.{resident_step};
ghost use Rattle.tripos_machine.specs.PacketHistory.Queues.{Moves};
ghost use Rattle.tripos_machine.specs.PacketHistory.SentBy.{AreOfTurn};

/// The turn of a handler moves packets as its events say, whatever it makes of the request. What it sends is from the handler, and it
/// takes nothing from the clock's queue.
pub fn request_law()
    ensures moves { (due : KernelEvent → ℕ) (serve : List ℕ → Lists → Request → Served) (s : List ℕ)
        (l : Lists) → HoldsLists s l → TakesRequest l
        → Moves due l (request_turn serve s l).events (request_turn serve s l).lists }
    ensures senders { (serve : List ℕ → Lists → Request → Served) (s : List ℕ) (l : Lists) → HoldsLists s l
        → TakesRequest l
        → AreOfTurn (signed l.running) (request_turn serve s l).events }
{}

/// So does the turn of the task that reports faults.
pub fn reporter_law()
    ensures moves { (due : KernelEvent → ℕ) (s : List ℕ) (l : Lists) → HoldsLists s l → RunsResident l
        → l.running ≡ REPORTER
        → Moves due l (fault_turn s l).events (fault_turn s l).lists }
    ensures senders { (s : List ℕ) (l : Lists) → HoldsLists s l → RunsResident l → l.running ≡ REPORTER
        → AreOfTurn (signed l.running) (fault_turn s l).events }
{}

/// A fault that is recorded sends the fault packet as its events say, from the task that runs.
pub fn record_law()
    ensures moves { (due : KernelEvent → ℕ) (f : Fault) (l : Lists) → AreValid l
        → has_task REPORTER l.tasks ≡ true
        → Moves due l (recorded_events f l) (recorded f l) }
    ensures senders { (f : Fault) (l : Lists) → AreValid l → has_task REPORTER l.tasks ≡ true
        → AreOfTurn (signed l.running) (recorded_events f l) }
{}

/// The turn of the console moves packets as its events say, for whatever task the shell waits. What it sends is from the console, but
/// for a request that it puts off, which waits for a line with the sender with which it came.
pub fn console_law()
    ensures moves { (due : KernelEvent → ℕ) (id : ℕ) (c : Console) (k s : List ℕ) (l : Lists) → HoldsLists s l
        → RunsResident l
        → l.running ≡ CONSOLE
        → Moves due l (console_turn id c k s l).events (console_turn id c k s l).lists }
    ensures senders { (id : ℕ) (c : Console) (k s : List ℕ) (l : Lists) → HoldsLists s l → RunsResident l
        → l.running ≡ CONSOLE
        → AreOfTurn (signed l.running) (console_turn id c k s l).events }
{}

/// The turn of the shell moves packets as its events say: it takes its first packet, and sends its own or returns another. What it
/// sends is from the shell, and it takes nothing from the clock's queue.
pub fn shell_law()
    ensures moves { (due : KernelEvent → ℕ) (s : List ℕ) (l : Lists) (sh : Shell) (d : Disc) → HoldsLists s l
        → RunsResident l
        → l.running ≡ SHELL
        → Moves due l (shell_turn s l sh d).events (shell_turn s l sh d).store.lists }
    ensures senders { (s : List ℕ) (l : Lists) (sh : Shell) (d : Disc) → HoldsLists s l → RunsResident l
        → l.running ≡ SHELL
        → AreOfTurn (signed l.running) (shell_turn s l sh d).events }
{}

/// So the turn of each resident moves packets as its events say, and what it sends is from the resident.
pub fn resident_law()
    ensures moves { (due : KernelEvent → ℕ) (k : Kernel) → HoldsLists (image k) k.lists
        → RunsResident k.lists
        → Moves due k.lists (resident_step k.lists.running k).events
        (resident_step k.lists.running k).kernel.lists }
    ensures senders { (k : Kernel) → HoldsLists (image k) k.lists → RunsResident k.lists
        → AreOfTurn (signed k.lists.running) (resident_step k.lists.running k).events }
{}
