// Laws of runs.
ghost use Rattle.std.specs.Prelude.{◌≡◌, ◌≢◌, ◌+◌, ◌≤◌, None, ℕ};
ghost use Rattle.bare_machine.specs.Run.{run};
ghost use Rattle.bare_machine.specs.State.{BareState};
ghost use Rattle.bare_machine.specs.Step.{and_then, quietly};

/// A run may be cut in two. A machine that has stopped stays as it is, and a run takes at most its steps.
pub fn run_law()
    ensures more { (m n : ℕ) (k : BareState) → run (m + n) k ≡ and_then (run m k) (run n) }
    ensures stopped { (n : ℕ) (k : BareState) → k.stop ≢ None → run n k ≡ quietly k }
    ensures steps { (n : ℕ) (k : BareState) → (run n k).state.steps ≤ k.steps + n }
{}
