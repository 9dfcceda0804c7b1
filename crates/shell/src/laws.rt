// What the shell's turn keeps.
ghost use Rattle.std.specs.Prelude.{◌≡◌, ℕ, List, is_some};
ghost use Rattle.word_store.specs.declared.registers.Regs.{Regs};
ghost use Rattle.kernel_model.specs.KernelRecord.Between.{AreValidFaults, IsAwaited, is_typing};
ghost use Rattle.kernel_model.specs.KernelRecord.Kernel.{Shell};
ghost use Rattle.kernel_model.specs.KernelRecord.Lists.{Lists};
ghost use Rattle.kernel_model.specs.KernelRecord.ValidLists.{AreValid};
ghost use Rattle.kernel_model.specs.KernelRecord.Versions.{highest_id_of};
ghost use Rattle.ram_disc.specs.Disc.{Disc, shell_stream, stream_at};
ghost use Rattle.kernel_model.specs.KernelDispatch.Dispatch.{CanDispatch};
ghost use Rattle.resident_tasks.specs.ResidentRequests.Requests.{RunsResident};
ghost use Rattle.kernel_model.specs.declared.kernel_record.numbers.TheConstants.{SHELL};
ghost use Rattle.shell.specs.KeptLists.{KeepsRest};
ghost use Rattle.shell.specs.ShellTurn.{RunsShell, shell_turn};

/// A turn changes nothing in the lists but the blocks, the modules and the tasks with their queues. So the same task is the
/// running one; the ticks, the version, the devices' queues, the reads that wait, and where the key packet and the fault packet
/// are stay as they were. A dispatch may follow where one may before, and the fault packet waits exactly where some fault was
/// not reported yet.
pub fn lists_law()
    ensures rest { (s : List ℕ) (l : Lists) (sh : Shell) (d : Disc)
        → KeepsRest l (shell_turn s l sh d).store.lists }
    ensures dispatch { (s : List ℕ) (l : Lists) (sh : Shell) (d : Disc) (r : Regs) → RunsResident l
        → CanDispatch l r → CanDispatch (shell_turn s l sh d).store.lists r }
    ensures faults { (s : List ℕ) (l : Lists) (sh : Shell) (d : Disc) → AreValid l → RunsResident l
        → l.running ≡ SHELL → AreValidFaults l
        → AreValidFaults (shell_turn s l sh d).store.lists }
{}

/// After a turn too the shell's stream is open exactly while it types a file, and the task for which it waits has a guest's
/// number. Its line is the same.
pub fn shell_law()
    ensures typing { (s : List ℕ) (l : Lists) (sh : Shell) (d : Disc) → RunsShell l sh d
        → IsAwaited (highest_id_of l.version) sh.mode
        → is_some (stream_at (shell_turn s l sh d).disc shell_stream)
        ≡ is_typing (shell_turn s l sh d).shell.mode }
    ensures awaited { (s : List ℕ) (l : Lists) (sh : Shell) (d : Disc) → RunsShell l sh d
        → IsAwaited (highest_id_of l.version) sh.mode
        → IsAwaited (highest_id_of l.version) (shell_turn s l sh d).shell.mode }
    ensures line { (s : List ℕ) (l : Lists) (sh : Shell) (d : Disc) → RunsShell l sh d
        → IsAwaited (highest_id_of l.version) sh.mode
        → (shell_turn s l sh d).shell.line ≡ sh.line }
{}
