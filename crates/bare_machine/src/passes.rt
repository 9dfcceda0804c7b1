// Instructions that are each a step of their own.
ghost use Rattle.std.specs.Prelude.{◌≡◌, ◌<◌, ◌≤◌, ℕ, false, true};
ghost use Rattle.instruction_set.specs.Instruction.{instruction};
ghost use Rattle.instruction_set.specs.declared.Outcome.TheVariants.{Sys};
ghost use Rattle.bare_machine.specs.Run.{Avoids, Executes};
ghost use Rattle.bare_machine.specs.State.{going};
ghost use Rattle.bare_machine.specs.Step.{unmarked};

use instruction_set::{NoKernel, Outcome, execute, execute_alone, has_breakpoint};
use word_store::{Regs, Store};

/// Executes at most so many instructions, and stops before what is none, and after the first before a breakpoint. The answer is how
/// many these are; `calls` says whether the next one is known to be a call. A fault is not kept, so that the loops have few words to
/// carry.
#[inline(always)]
pub(crate) fn pass(
    store: &mut Store,
    regs: &mut Regs,
    most: u64,
    breakpoints: &[u32],
    calls: &mut bool,
) -> u64
    requires { regs.old.c < 256 }
    ensures most { result ≤ most }
    ensures executes { Executes result store.old regs.old store.new regs.new }
    ensures before { (k : ℕ) → Avoids breakpoints.now result (going store.old regs.old k) }
    ensures calls { calls.new ≡ true → (instruction unmarked store.new regs.new).outcome ≡ Sys }
    ensures byte { regs.new.c < 256 }
{
    *calls = false;
    if breakpoints.is_empty() {
        return pass_all(store, regs, most, calls);
    }
    pass_to(store, regs, most, breakpoints, calls)
}

// The same without breakpoints. It is a loop of its own, so that it stays small.
#[inline(never)]
fn pass_all(store: &mut Store, regs: &mut Regs, most: u64, calls: &mut bool) -> u64
    requires byte { regs.old.c < 256 }
    requires calls { calls.old ≡ false }
    ensures most { result ≤ most }
    ensures executes { Executes result store.old regs.old store.new regs.new }
    ensures calls { calls.new ≡ true → (instruction unmarked store.new regs.new).outcome ≡ Sys }
    ensures byte { regs.new.c < 256 }
{
    for steps in 0..most {
        match execute(store, regs, &NoKernel) {
            Outcome::Next => {}
            Outcome::Sys => {
                *calls = true;
                return steps;
            }
            Outcome::Returned | Outcome::Fault(_) => return steps,
        }
    }
    most
}

// The same with breakpoints, for which it is asked before each instruction but the first. An instruction is a call here, so that
// it stays a part of the loop without breakpoints.
#[inline(never)]
fn pass_to(
    store: &mut Store,
    regs: &mut Regs,
    most: u64,
    breakpoints: &[u32],
    calls: &mut bool,
) -> u64
    requires byte { regs.old.c < 256 }
    requires calls { calls.old ≡ false }
    ensures most { result ≤ most }
    ensures executes { Executes result store.old regs.old store.new regs.new }
    ensures before { (k : ℕ) → Avoids breakpoints.now result (going store.old regs.old k) }
    ensures calls { calls.new ≡ true → (instruction unmarked store.new regs.new).outcome ≡ Sys }
    ensures byte { regs.new.c < 256 }
{
    for steps in 0..most {
        if steps > 0 && has_breakpoint(regs.pc, breakpoints) {
            return steps;
        }
        match execute_alone(store, regs, &NoKernel) {
            Outcome::Next => {}
            Outcome::Sys => {
                *calls = true;
                return steps;
            }
            Outcome::Returned | Outcome::Fault(_) => return steps,
        }
    }
    most
}
