// Steps in which the running guest executes an instruction, and nothing else happens.
ghost use Rattle.std.specs.Prelude.{◌≡◌, ◌<◌, MatchOption, None};
ghost use Rattle.kernel_model.specs.KernelRecord.Ranges.{most_steps};
ghost use Rattle.kernel_machine.specs.RunningMachine.Machine.{IsWhole, kernel_of};
ghost use Rattle.kernel_machine.specs.RunningMachine.PlainSteps.{DifferBeside, IsPlain};
ghost use Rattle.kernel_machine.specs.RunningMachine.Runs.{HasPassed};

use crate::running_machine::Parts;
use crate::running_machine::spans::{before_key, before_return, count, serves_now};
use crate::running_machine::turns::running;
use guest_turns::execute_guest;
use instruction_set::{Outcome, Places, written_places};
use kernel_lists::FIRST_GUEST;

/// Takes one step of a machine that has not stopped, if nothing happens in it but that the running guest executes an instruction.
/// The answer tells the words that the instruction may have written. Else it is `None`, and nothing changes.
pub(crate) fn execute_one(parts: &mut Parts) -> Option<Places>
    requires whole { IsWhole parts.old None }
    requires steps { parts.old.step < most_steps }
    ensures step { MatchOption result (parts.new ≡ parts.old)
        (λ p. HasPassed 1 (kernel_of parts.old None) parts.new
        × DifferBeside p parts.old.store parts.new.store) }
    ensures none { result ≡ None → IsPlain (kernel_of parts.old None) → ⊥ }
    ensures keys { parts.new.keys.keys ≡ parts.old.keys.keys }
{
    if serves_now(parts) {
        return None;
    }
    if before_key(parts).min(before_return(parts)) == 0 {
        return None;
    }
    if running(&parts.store) < FIRST_GUEST {
        return None;
    }
    let places = written_places(&parts.store, parts.regs);
    match execute_guest(&mut parts.store, &mut parts.regs, &parts.kinds) {
        Outcome::Next => {
            count(parts, 1);
            Some(places)
        }
        Outcome::Sys | Outcome::Returned | Outcome::Fault(_) => None,
    }
}
