// Laws of what lines ask for, and of how far a run goes.
ghost use Rattle.std.specs.Prelude.{◌≡◌, ◌<◌, ◌≤◌, ℕ, List, Ok, Err, false, true, if◌then◌else◌};
ghost use Rattle.tripos_machine.specs.State.{State};
ghost use Rattle.tripos_machine.specs.Step.{run};
ghost use Rattle.debugger.specs.declared.orders.Order.{Order};
ghost use Rattle.debugger.specs.Debugged.{steps_to};
ghost use Rattle.debugger.specs.Orders.{Asks, bad, is_in_range, order_of};
ghost use Rattle.debugger.specs.Views.{is_end};

/// What a line asks for is what its bytes say: one word, or a word and numbers. It is refused with code 2 where a number is out of its
/// range, and with code 1 exactly where the line has no form that there is.
pub fn order_law()
    ensures asks { (n : ℕ) (line : List ℕ) (o : Order) → Asks o line
        → order_of n line ≡ (if is_in_range o then Ok o else Err (bad n 2)) }
    ensures none { (n : ℕ) (line : List ℕ) → ((o : Order) → Asks o line → ⊥)
        → order_of n line ≡ Err (bad n 1) }
{}

/// Steps up to a breakpoint: at most all, and one at least where one may be taken; after none of them but the last is there a
/// breakpoint or a stop; and after the last, where they are not all.
pub fn steps_law()
    ensures most { (stops : List ℕ) (n : ℕ) (s : State) → steps_to stops n s ≤ n }
    ensures some { (stops : List ℕ) (n : ℕ) (s : State) → 0 < n → 0 < steps_to stops n s }
    ensures earlier { (stops : List ℕ) (n i : ℕ) (s : State) → 0 < i → i < steps_to stops n s
        → is_end stops (run i s).state ≡ false }
    ensures last { (stops : List ℕ) (n : ℕ) (s : State) → steps_to stops n s < n
        → is_end stops (run (steps_to stops n s) s).state ≡ true }
{}
