// A step: an instruction, and what it asks for.
ghost use Rattle.std.specs.Prelude.{◌≡◌, ◌<◌, [], ◌++◌, None, MatchOption, length, true};
ghost use Rattle.kernel_model.specs.KernelRecord.Ranges.{most_steps};
ghost use Rattle.instruction_set.specs.declared.Outcome.TheVariants.{Sys};
ghost use Rattle.bare_machine.specs.Calls.{call_answer};
ghost use Rattle.bare_machine.specs.Run.{IsPlain, IsPlainStep};
ghost use Rattle.bare_machine.specs.State.{IsSound, bare_state};
ghost use Rattle.bare_machine.specs.Step.{after_call, instruction_of, step};

use crate::BareParts;
use crate::calls::call;
use byte_streams::Output;
use instruction_set::{Fault, NoKernel, Outcome, Places, execute_alone, written_places};
use kernel_model::Stop;

/// One step of a machine that has stopped or not. One that has stays as it is. The answer is why it has stopped, if it has.
pub(crate) fn step_or_stay(
    parts: &mut BareParts,
    stop: Option<Stop>,
    bytes: &mut Output,
) -> Option<Stop>
    requires sound { IsSound parts.old }
    requires steps { parts.old.step < most_steps }
    requires empty { bytes.old ≡ [] }
    ensures state { bare_state parts.new result ≡ (step (bare_state parts.old stop)).state }
    ensures bytes { bytes.new ≡ (step (bare_state parts.old stop)).bytes }
    ensures sound { IsSound parts.new }
{
    match stop {
        Some(_) => stop,
        None => step(parts, bytes),
    }
}

/// One step of a machine that has not stopped, and whether it is known that its instruction is a call, which is not decoded then.
/// The answer is why it stops in this step, if it does.
pub(crate) fn next_step(parts: &mut BareParts, calls: bool, bytes: &mut Output) -> Option<Stop>
    requires sound { IsSound parts.old }
    requires steps { parts.old.step < most_steps }
    requires room { length bytes.old < 8192 }
    requires calls { calls ≡ true → (instruction_of (bare_state parts.old None)).outcome ≡ Sys }
    ensures state { bare_state parts.new result ≡ (step (bare_state parts.old None)).state }
    ensures bytes { bytes.new ≡ bytes.old ++ (step (bare_state parts.old None)).bytes }
    ensures sound { IsSound parts.new }
{
    if !calls {
        return step(parts, bytes);
    }
    parts.step += 1;
    answer_call(parts, bytes)
}

/// One step of a machine that has not stopped, if it is an instruction alone. The answer tells where the instruction may have written;
/// `None`: no step is taken.
pub(crate) fn execute_one(parts: &mut BareParts) -> Option<Places>
    requires sound { IsSound parts.old }
    requires steps { parts.old.step < most_steps }
    ensures step { MatchOption result (parts.new ≡ parts.old)
        (λ p. IsPlainStep p (bare_state parts.old None) (bare_state parts.new None)) }
    ensures none { result ≡ None → IsPlain (bare_state parts.old None) → ⊥ }
    ensures sound { IsSound parts.new }
{
    let places = written_places(&parts.store, parts.regs);
    match execute_alone(&mut parts.store, &mut parts.regs, &NoKernel) {
        Outcome::Next => {
            parts.step += 1;
            Some(places)
        }
        Outcome::Sys | Outcome::Returned | Outcome::Fault(_) => None,
    }
}

// One step of a machine that has not stopped. The answer is why it stops in this step, if it does.
#[cold]
#[inline(never)]
fn step(parts: &mut BareParts, bytes: &mut Output) -> Option<Stop>
    requires sound { IsSound parts.old }
    requires steps { parts.old.step < most_steps }
    requires room { length bytes.old < 8192 }
    ensures state { bare_state parts.new result ≡ (step (bare_state parts.old None)).state }
    ensures bytes { bytes.new ≡ bytes.old ++ (step (bare_state parts.old None)).bytes }
    ensures sound { IsSound parts.new }
{
    parts.step += 1;
    match execute_alone(&mut parts.store, &mut parts.regs, &NoKernel) {
        Outcome::Next => None,
        Outcome::Sys => answer_call(parts, bytes),
        Outcome::Returned => Some(Stop::Quit(0)),
        Outcome::Fault(fault) => Some(stop_by(fault)),
    }
}

// The call of a step that is counted already. The answer is why the machine stops, if it does.
fn answer_call(parts: &mut BareParts, bytes: &mut Output) -> Option<Stop>
    requires sound { IsSound parts.old }
    requires room { length bytes.old < 8192 }
    ensures state { let m = bare_state parts.old None in
        bare_state parts.new result ≡ (after_call (call_answer m.words m.regs) m).state }
    ensures bytes { let m = bare_state parts.old None in
        bytes.new ≡ bytes.old ++ (after_call (call_answer m.words m.regs) m).bytes }
    ensures sound { IsSound parts.new }
{
    match call(&parts.store, parts.regs) {
        Ok(answer) => {
            parts.regs = answer.regs;
            if let Some(byte) = answer.byte {
                bytes.append(&[byte]);
            }
            answer.stop
        }
        Err(fault) => Some(stop_by(fault)),
    }
}

// A bare machine runs no task.
fn stop_by(fault: Fault) -> Stop
    ensures { result ≡ Stop.Fault fault.code fault.address 0 }
{
    Stop::Fault {
        code: fault.code,
        address: fault.address,
        task: 0,
    }
}
