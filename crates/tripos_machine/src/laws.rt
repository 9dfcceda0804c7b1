// Laws of runs.
ghost use Rattle.std.specs.Prelude.{◌≡◌, ◌≢◌, ◌+◌, ◌≤◌, Any, Err, None, Ok, length, ℕ};
ghost use Rattle.module_text.specs.TextReader.Refusal.{Refusal};
ghost use Rattle.session_text.specs.Canonical.{IsLawful};
ghost use Rattle.session_text.specs.declared.sessions.Session.{Session};
ghost use Rattle.bare_machine.specs.Run.{run as bare_run};
ghost use Rattle.bare_machine.specs.State.{BareState};
ghost use Rattle.kernel_model.specs.KernelRecord.Kernel.{Kernel};
ghost use Rattle.kernel_model.specs.KernelRecord.Ranges.{most_steps};
ghost use Rattle.kernel_machine.specs.KernelSteps.Step.{run as kernel_run};
ghost use Rattle.tripos_machine.specs.Boot.{boot};
ghost use Rattle.tripos_machine.specs.Histories.{HasBootHistory, HasHistory};
ghost use Rattle.tripos_machine.specs.State.{IsSound, State, steps_of, stop_of, words_of};
ghost use Rattle.tripos_machine.specs.State.State.{Bare, Full};
ghost use Rattle.tripos_machine.specs.Step.{Stepped, and_then, of_bare, of_kernel, quietly, run, step};

/// The line of a session that a boot refuses is one of the session's.
pub fn boot_law()
    ensures { (s : Session) (r : Refusal) → boot s ≡ Err r
        → Any (λ line. line.line ≡ r.line) s.lines }
{}

/// A run is that of the machine's kind. It may be cut in two; a machine that has stopped stays as it is; and a run takes at most
/// its steps, and all of them where the machine has not stopped then.
pub fn run_law()
    ensures bare { (n : ℕ) (m : BareState) → run n (Bare m) ≡ of_bare (bare_run n m) }
    ensures full { (n : ℕ) (k : Kernel) → run n (Full k) ≡ of_kernel (kernel_run n k) }
    ensures more { (m n : ℕ) (s : State) → run (m + n) s ≡ and_then (run m s) (run n) }
    ensures stopped { (n : ℕ) (s : State) → stop_of s ≢ None → run n s ≡ quietly s }
    ensures steps { (n : ℕ) (s : State) → steps_of (run n s).state ≤ steps_of s + n }
    ensures later { (n : ℕ) (s : State) → steps_of s ≤ steps_of (run n s).state }
    ensures counts { (n : ℕ) (s : State) → stop_of (run n s).state ≡ None
        → steps_of (run n s).state ≡ steps_of s + n }
{}

/// A step of a machine between steps leaves as many words as there were. One of a machine that has not stopped is one more.
pub fn step_law()
    ensures size { (s : State) → IsSound s
        → length (words_of (step s).state) ≡ length (words_of s) }
    ensures count { (s : State) → stop_of s ≡ None
        → steps_of (step s).state ≡ steps_of s + 1 }
{}

/// The history law: nothing that was sent is lost. The events of each run of a machine between steps are a history of its packets: each
/// packet that is accepted is taken once, dequeued once or still queued, on its queue, in its order and from its sender; due ticks are
/// kept; and after each step the first ready task runs. So are the events of a boot and of the steps after it, from no packet on.
pub fn history_law()
    ensures run { (n : ℕ) (s : State) → IsSound s → steps_of s + n ≤ most_steps
        → HasHistory n s }
    ensures boot { (n : ℕ) (s : Session) (x : Stepped) → IsLawful s → boot s ≡ Ok x
        → n ≤ most_steps
        → HasBootHistory n x }
{}
