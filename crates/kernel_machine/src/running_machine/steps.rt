// A step: the running task's turn, the devices, and dispatch.
ghost use Rattle.std.specs.Prelude.{◌≡◌, ◌<◌, [], None, length};
ghost use Rattle.kernel_model.specs.KernelRecord.Ranges.{most_steps};
ghost use Rattle.kernel_model.specs.KernelRecord.Kernel.{Kernel};
ghost use Rattle.kernel_model.specs.KernelRecord.ValidKernel.{IsValid};
ghost use Rattle.kernel_calls.specs.CallAnswers.Outside.{outside};
ghost use Rattle.kernel_machine.specs.RunningMachine.RepresentedKernels.{RepresentsKernel};
ghost use Rattle.kernel_machine.specs.KernelSteps.Parts.{IsTaken};
ghost use Rattle.kernel_machine.specs.KernelSteps.Step.{after_the_turn, step};
ghost use Rattle.kernel_machine.specs.RunningMachine.Private.Leaves.{CanServe, Leaves};

use crate::running_machine::Parts;
use crate::running_machine::devices::{dispatch, key, output, tick};
use crate::running_machine::turns::turn;
use byte_streams::Output;
use kernel_lists::EventLog;
use kernel_model::Stop;

/// One step of a machine that has stopped or not. One that has stays as it is. The answer is why it has stopped, if it has.
pub(crate) fn step_or_stay<L: EventLog>(
    parts: &mut Parts,
    stop: Option<Stop>,
    bytes: &mut Output,
    log: &mut L,
) -> Option<Stop>
    requires represents { (k : Kernel) × RepresentsKernel parts.old k × IsValid k
        × (stop ≡ k.stop) × (k.steps < most_steps) }
    requires empty { bytes.old ≡ [] }
    ensures stepped { (k : Kernel) → RepresentsKernel parts.old k → IsValid k
        → stop ≡ k.stop
        → k.steps < most_steps → Leaves parts.new
        (outside bytes.old (L.noted log.old) (L.has_failed log.old))
        (outside bytes.new (L.noted log.new) (L.has_failed log.new)) (step k) }
    ensures stop { (k : Kernel) → RepresentsKernel parts.old k → IsValid k
        → stop ≡ k.stop
        → k.steps < most_steps → result ≡ (step k).kernel.stop }
    ensures keys { parts.new.keys.keys ≡ parts.old.keys.keys }
    ensures taken { (k : Kernel) → RepresentsKernel parts.old k → IsValid k → k.stop ≡ None
        → stop ≡ k.stop
        → k.steps < most_steps → IsTaken k }
{
    match stop {
        Some(_) => stop,
        None => step(parts, bytes, log),
    }
}

// One step of a machine that has not stopped. The answer is why it stops in this step, if it does.
fn step<L: EventLog>(parts: &mut Parts, bytes: &mut Output, log: &mut L) -> Option<Stop>
    requires represents { (k : Kernel) × RepresentsKernel parts.old k × IsValid k × (k.stop ≡ None)
        × (k.steps < most_steps) }
    requires empty { bytes.old ≡ [] }
    ensures stepped { (k : Kernel) → RepresentsKernel parts.old k → IsValid k → k.stop ≡ None
        → k.steps < most_steps → Leaves parts.new
        (outside bytes.old (L.noted log.old) (L.has_failed log.old))
        (outside bytes.new (L.noted log.new) (L.has_failed log.new)) (step k) }
    ensures stop { (k : Kernel) → RepresentsKernel parts.old k → IsValid k → k.stop ≡ None
        → k.steps < most_steps → result ≡ (step k).kernel.stop }
    ensures keys { parts.new.keys.keys ≡ parts.old.keys.keys }
    ensures taken { (k : Kernel) → RepresentsKernel parts.old k → IsValid k → k.stop ≡ None
        → k.steps < most_steps → IsTaken k }
{
    parts.step += 1;
    let stop = turn(parts, bytes, log);
    if stop.is_none() {
        serve(parts, bytes, log);
    }
    stop
}

// The devices, and then dispatch.
fn serve<L: EventLog>(parts: &mut Parts, bytes: &mut Output, log: &mut L)
    requires represents { (k : Kernel) × RepresentsKernel parts.old k × CanServe k }
    requires room_for_byte { length bytes.old < 8192 }
    ensures served { (k : Kernel) → RepresentsKernel parts.old k → CanServe k → Leaves parts.new
        (outside bytes.old (L.noted log.old) (L.has_failed log.old))
        (outside bytes.new (L.noted log.new) (L.has_failed log.new)) (after_the_turn k) }
    ensures keys { parts.new.keys.keys ≡ parts.old.keys.keys }
{
    tick(parts, bytes, log);
    key(parts, bytes, log);
    output(parts, bytes, log);
    dispatch(parts, bytes, log);
}
