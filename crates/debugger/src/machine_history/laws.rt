// The law of what is kept.
ghost use Rattle.std.specs.Prelude.{◌≡◌, ◌≤◌, ◌++◌, List, length, true};
ghost use Rattle.tripos_machine.specs.State.{State};
ghost use Rattle.debugger.specs.MachineHistory.Pasts.{fits, kept};

/// What can be gone back to is a suffix of what could be before, with the state that a step was taken from. It fits: there are at
/// most 4,096 states, at most 65,536 words change from each to the next, all together, and in at most 16 of them files or pipes may
/// change. And no suffix that fits is longer.
pub fn past_law()
    ensures suffix { (past : List State) (now : State)
        → (dropped : List State) × (dropped ++ kept past now ≡ past) }
    ensures fits { (past : List State) (now : State) → fits (kept past now) now ≡ true }
    ensures longest { (front back : List State) (now : State) → fits back now ≡ true
        → length back ≤ length (kept (front ++ back) now) }
{}
