// Turns leave valid lists.
ghost use Rattle.std.specs.Prelude.{◌≡◌, List, None, ℕ};
ghost use Rattle.ram_disc.specs.Disc.{Disc};
ghost use Rattle.kernel_model.specs.KernelRecord.HoldsLists.{HoldsLists};
ghost use Rattle.kernel_model.specs.KernelRecord.Image.{image};
ghost use Rattle.kernel_model.specs.KernelRecord.Kernel.{Console, Kernel, Shell};
ghost use Rattle.kernel_model.specs.KernelRecord.Lists.{Lists};
ghost use Rattle.kernel_model.specs.KernelRecord.ValidKernel.{IsValid};
ghost use Rattle.kernel_model.specs.KernelRecord.ValidLists.{AreValid};
ghost use Rattle.kernel_model.specs.declared.kernel_record.numbers.TheConstants.{CONSOLE, REPORTER, SHELL};
ghost use Rattle.resident_tasks.specs.ResidentRequests.Answers.{finished};
ghost use Rattle.resident_tasks.specs.ResidentRequests.Requests.{RunsResident, TakesRequest};
ghost use Rattle.resident_tasks.specs.ResidentRequests.Turns.{Served, request_turn};
ghost use Rattle.resident_tasks.specs.declared.resident_requests.requests.Request.{Request};
ghost use Rattle.resident_tasks.specs.FaultReporter.FaultTurns.{fault_turn};
ghost use Rattle.resident_tasks.specs.ConsoleHandler.ConsoleTurn.{console_turn};
ghost use Rattle.shell.specs.ShellTurn.{shell_turn};
ghost use Rattle.kernel_machine.specs.KernelSteps.ResidentSteps.{resident_step};
ghost use Rattle.kernel_machine.specs.KernelSteps.Step.{turn, with_step};

/// The turn of a handler leaves valid lists, whatever it makes of the request, and so does the end of each resident's turn.
pub fn handler_law()
    ensures request { (serve : List ℕ → Lists → Request → Served) (s : List ℕ) (l : Lists) → HoldsLists s l
        → TakesRequest l
        → AreValid (request_turn serve s l).lists }
    ensures ends { (s : List ℕ) (l : Lists) → HoldsLists s l → RunsResident l → AreValid (finished l) }
{}

/// So does the turn of the task that reports faults.
pub fn reporter_law()
    ensures { (s : List ℕ) (l : Lists) → HoldsLists s l → RunsResident l → l.running ≡ REPORTER
        → AreValid (fault_turn s l).lists }
{}

/// So does the turn of the console, for whatever task the shell waits.
pub fn console_law()
    ensures { (id : ℕ) (c : Console) (k s : List ℕ) (l : Lists) → HoldsLists s l → RunsResident l
        → l.running ≡ CONSOLE
        → AreValid (console_turn id c k s l).lists }
{}

/// So does the turn of the shell, whatever it does next, also where it finishes the machine.
pub fn shell_law()
    ensures { (s : List ℕ) (l : Lists) (sh : Shell) (d : Disc) → HoldsLists s l → RunsResident l
        → l.running ≡ SHELL
        → AreValid (shell_turn s l sh d).store.lists }
{}

/// So the turn of each resident leaves valid lists.
pub fn resident_law()
    ensures { (k : Kernel) → HoldsLists (image k) k.lists → RunsResident k.lists
        → AreValid (resident_step k.lists.running k).kernel.lists }
{}

/// So in each step of a valid kernel the turn leaves valid lists, whoever runs.
pub fn turn_law()
    ensures { (k : Kernel) → IsValid k → k.stop ≡ None → AreValid (turn (with_step k)).kernel.lists }
{}
