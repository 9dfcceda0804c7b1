// Steps in which no device acts.
ghost use Rattle.std.specs.Prelude.{◌≡◌, ◌<◌, ◌≤◌, ◌+◌, ◌-◌, ◌/◌, None, false, true, ℕ};
ghost use Rattle.kernel_model.specs.KernelRecord.Ranges.{most_steps};
ghost use Rattle.kernel_model.specs.KernelRecord.Kernel.{Kernel};
ghost use Rattle.kernel_model.specs.KernelRecord.Task.{is_guest_id};
ghost use Rattle.kernel_machine.specs.KernelSteps.Quiet.{AwaitsTick, ComeAfter, IsQuietFor};
ghost use Rattle.kernel_machine.specs.KernelSteps.Step.{run};
ghost use Rattle.kernel_machine.specs.RunningMachine.Machine.{IsWhole, kernel_of};
ghost use Rattle.kernel_machine.specs.RunningMachine.Script.{still_to_come};
ghost use Rattle.kernel_machine.specs.RunningMachine.Runs.{AreQuiet, Avoids, HasNoTick, HasPassed, IsIdle, IsOnWay, ServesNone, counted};

use crate::running_machine::Parts;
use crate::running_machine::turns::running;
use guest_turns::{execute_guest, execute_next};
use instruction_set::{Outcome, has_breakpoint};
use kernel_lists::{DUE, FIRST_GUEST, RootField, root, set_root};
use word_store::word_at;

/// Takes at most `most` steps of a machine that has not stopped, in which nothing happens but that the running task executes
/// instructions: as many as there are before a device may act, before the task does something else, or up to the first instruction
/// but the next one that is at a breakpoint. The answer is how many these are.
pub(crate) fn pass(parts: &mut Parts, most: u64, breakpoints: &[u32]) -> u64
    requires whole { IsWhole parts.old None }
    requires steps { parts.old.step + most ≤ most_steps }
    ensures most { result ≤ most }
    ensures passed { HasPassed result (kernel_of parts.old None) parts.new }
    ensures before { Avoids breakpoints.now result (kernel_of parts.old None) }
    ensures keys { parts.new.keys.keys ≡ parts.old.keys.keys }
{
    if serves_now(parts) {
        return 0;
    }
    let quiet = most.min(before_key(parts)).min(before_return(parts));
    let task = running(&parts.store);
    if task == 0 {
        wait(parts, quiet);
        return quiet;
    }
    if task < FIRST_GUEST {
        return 0;
    }
    execute(parts, quiet, breakpoints)
}

/// How many steps there are in which nobody runs and no device acts.
pub(crate) fn idle_steps(parts: &Parts) -> u64
    requires { IsWhole parts.now None }
    ensures quiet { (n : ℕ) → n ≤ result → AreQuiet n (kernel_of parts.now None) }
    ensures some { IsIdle (kernel_of parts.now None) → 0 < result }
{
    if running(&parts.store) != 0 {
        return 0;
    }
    if serves_now(parts) {
        return 0;
    }
    before_key(parts).min(before_return(parts))
}

/// Whether the output device or the keyboard has a packet to serve.
pub(crate) fn serves_now(parts: &Parts) -> bool
    requires { IsWhole parts.now None }
    ensures none { result ≡ false → ServesNone (kernel_of parts.now None) }
    ensures some { result ≡ true → ServesNone (kernel_of parts.now None) → ⊥ }
{
    if root(&parts.store, RootField::OutputQueue) != 0 {
        return true;
    }
    if root(&parts.store, RootField::KeyQueue) == 0 {
        return false;
    }
    parts.tty.at(0).is_some()
}

/// How many steps there are before the next key comes.
pub(crate) fn before_key(parts: &Parts) -> u64
    requires { parts.now.step ≤ most_steps }
    ensures later { (m : ℕ) → 0 < m → m ≤ result
        → ComeAfter (parts.now.step + m) (still_to_come parts.now.keys) }
    ensures next { result ≡ 0 → ComeAfter (parts.now.step + 1) (still_to_come parts.now.keys) → ⊥ }
{
    match parts.keys.first() {
        Some((due, _)) => u64::from(due).saturating_sub(parts.step + 1),
        None => u64::MAX,
    }
}

/// How many steps there are before the clock returns a packet.
pub(crate) fn before_return(parts: &Parts) -> u64
    requires { IsWhole parts.now None }
    ensures later { (m : ℕ) → m ≤ result
        → AwaitsTick ((parts.now.step + m) / parts.now.period) (kernel_of parts.now None).lists }
    ensures next { result ≡ 0
        → AwaitsTick ((parts.now.step + 1) / parts.now.period) (kernel_of parts.now None).lists → ⊥ }
{
    let packet = root(&parts.store, RootField::ClockQueue);
    if packet == 0 {
        return u64::MAX;
    }
    let due = word_at(&parts.store, packet, DUE);
    before(parts, due.max(next_tick(parts)))
}

// The ticks are so many once the clock has ticked again.
fn next_tick(parts: &Parts) -> u32
    requires { IsWhole parts.now None }
    ensures { result ≡ (kernel_of parts.now None).lists.tick + 1 }
{
    root(&parts.store, RootField::Tick) + 1
}

// How many steps there are before the ticks are so many as `tick`, which they are not yet.
fn before(parts: &Parts, tick: u32) -> u64
    requires whole { IsWhole parts.now None }
    requires later { (kernel_of parts.now None).lists.tick < tick }
    ensures later { (m : ℕ) → m ≤ result → (parts.now.step + m) / parts.now.period < tick }
    ensures next { (parts.now.step + (result + 1)) / parts.now.period ≡ tick }
{
    u64::from(tick) * u64::from(parts.period) - 1 - parts.step
}

// Nobody runs in these steps, and only the steps and the ticks are counted.
fn wait(parts: &mut Parts, steps: u64)
    requires whole { IsWhole parts.old None }
    requires idle { (kernel_of parts.old None).lists.running ≡ 0 }
    requires quiet { 0 < steps → IsQuietFor steps (kernel_of parts.old None) }
    requires most { parts.old.step + steps ≤ most_steps }
    ensures passed { HasPassed steps (kernel_of parts.old None) parts.new }
    ensures keys { parts.new.keys.keys ≡ parts.old.keys.keys }
{
    if steps > 0 {
        count(parts, steps);
    }
}

// Executes at most so many instructions of the running guest, and stops before what is none, and after one that leads to a
// breakpoint. The answer is how many it executed.
fn execute(parts: &mut Parts, most: u64, breakpoints: &[u32]) -> u64
    requires whole { IsWhole parts.old None }
    requires guest { is_guest_id (kernel_of parts.old None).lists.running ≡ true }
    requires quiet { 0 < most → IsQuietFor most (kernel_of parts.old None) }
    requires most { parts.old.step + most ≤ most_steps }
    ensures most { result ≤ most }
    ensures passed { HasPassed result (kernel_of parts.old None) parts.new }
    ensures before { Avoids breakpoints.now result (kernel_of parts.old None) }
    ensures keys { parts.new.keys.keys ≡ parts.old.keys.keys }
{
    let mut taken = 0;
    while taken < most {
        let steps = up_to_tick(parts).min(most - taken);
        let executed = execute_some(parts, steps, breakpoints);
        count(parts, executed);
        taken += executed;
        if executed < steps {
            return taken;
        }
        if has_breakpoint(parts.regs.pc, breakpoints) {
            return taken;
        }
    }
    taken
}

// How many steps there are up to the next tick, with the one in which it comes.
fn up_to_tick(parts: &Parts) -> u64
    requires period { 0 < parts.now.period }
    ensures some { 0 < result }
    ensures before { HasNoTick result parts.now }
{
    let period = u64::from(parts.period);
    period - parts.step % period
}

// Executes at most so many instructions of the running guest, of which the clock ticks in the last one at most, and stops before
// what is none, and after one that leads to a breakpoint. The answer is how many it executed, and they are still to be counted.
fn execute_some(parts: &mut Parts, most: u64, breakpoints: &[u32]) -> u64
    requires way { (k : Kernel) × (n : ℕ) × (m : ℕ) × IsOnWay k n m parts.old × (most ≤ m)
        × (k.steps + (n + m) ≤ most_steps) }
    requires before { HasNoTick most parts.old }
    ensures most { result ≤ most }
    ensures way { (k : Kernel) (n m : ℕ) → IsOnWay k n m parts.old → most ≤ m
        → k.steps + (n + m) ≤ most_steps
        → IsOnWay k (n + result) (m - result) (counted result parts.new) }
    ensures between { (k : Kernel) (n m : ℕ) → IsOnWay k n m parts.old → most ≤ m
        → k.steps + (n + m) ≤ most_steps
        → Avoids breakpoints.now result (run n k).kernel }
    ensures keys { parts.new.keys.keys ≡ parts.old.keys.keys }
{
    if breakpoints.is_empty() {
        return execute_uncounted(parts, most);
    }
    execute_to_breakpoint(parts, most, breakpoints)
}

// The same without breakpoints. Why it stopped is not kept, so that the loop has fewer words to carry.
#[inline(never)]
fn execute_uncounted(parts: &mut Parts, most: u64) -> u64
    requires way { (k : Kernel) × (n : ℕ) × (m : ℕ) × IsOnWay k n m parts.old × (most ≤ m)
        × (k.steps + (n + m) ≤ most_steps) }
    requires before { HasNoTick most parts.old }
    ensures most { result ≤ most }
    ensures way { (k : Kernel) (n m : ℕ) → IsOnWay k n m parts.old → most ≤ m
        → k.steps + (n + m) ≤ most_steps
        → IsOnWay k (n + result) (m - result) (counted result parts.new) }
    ensures keys { parts.new.keys.keys ≡ parts.old.keys.keys }
{
    for taken in 0..most {
        match execute_next(&mut parts.store, &mut parts.regs, &parts.kinds) {
            Outcome::Next => {}
            Outcome::Sys | Outcome::Returned | Outcome::Fault(_) => return taken,
        }
    }
    most
}

// The same with breakpoints: it stops after the first instruction that leads to one. An instruction is a call here, so that it
// stays part of the loop without breakpoints.
#[inline(never)]
fn execute_to_breakpoint(parts: &mut Parts, most: u64, breakpoints: &[u32]) -> u64
    requires way { (k : Kernel) × (n : ℕ) × (m : ℕ) × IsOnWay k n m parts.old × (most ≤ m)
        × (k.steps + (n + m) ≤ most_steps) }
    requires before { HasNoTick most parts.old }
    ensures most { result ≤ most }
    ensures way { (k : Kernel) (n m : ℕ) → IsOnWay k n m parts.old → most ≤ m
        → k.steps + (n + m) ≤ most_steps
        → IsOnWay k (n + result) (m - result) (counted result parts.new) }
    ensures between { (k : Kernel) (n m : ℕ) → IsOnWay k n m parts.old → most ≤ m
        → k.steps + (n + m) ≤ most_steps
        → Avoids breakpoints.now result (run n k).kernel }
    ensures keys { parts.new.keys.keys ≡ parts.old.keys.keys }
{
    for taken in 0..most {
        match execute_guest(&mut parts.store, &mut parts.regs, &parts.kinds) {
            Outcome::Next => {
                if has_breakpoint(parts.regs.pc, breakpoints) {
                    return taken + 1;
                }
            }
            Outcome::Sys | Outcome::Returned | Outcome::Fault(_) => return taken,
        }
    }
    most
}

/// Counts these steps, and with them the ticks.
pub(crate) fn count(parts: &mut Parts, steps: u64)
    requires period { 0 < parts.old.period }
    requires most { parts.old.step + steps ≤ most_steps }
    ensures { parts.new ≡ counted steps parts.old }
{
    parts.step += steps;
    let tick = parts.step / u64::from(parts.period);
    set_root(&mut parts.store, RootField::Tick, tick as u32);
}
