// The devices and dispatch.
ghost use Rattle.std.specs.Prelude.{◌≡◌, ◌<◌, length};
ghost use Rattle.kernel_model.specs.KernelRecord.Kernel.{Kernel};
ghost use Rattle.kernel_model.specs.KernelDispatch.Dispatch.{CanDispatch};
ghost use Rattle.kernel_calls.specs.CallAnswers.Outside.{outside};
ghost use Rattle.kernel_machine.specs.RunningMachine.RepresentedKernels.{RepresentsKernel};
ghost use Rattle.kernel_machine.specs.KernelSteps.Step.{dispatch, key, output, tick, with_key_typed};
ghost use Rattle.kernel_machine.specs.RunningMachine.Private.Leaves.{CanServe, Leaves};

use crate::running_machine::Parts;
use byte_streams::Output;
use kernel_devices::{finish_output, tick as clock_tick};
use kernel_lists::EventLog;
use kernel_model::kernel_dispatch::switch;

/// In a step that is a multiple of the period the clock ticks.
pub(crate) fn tick<L: EventLog>(parts: &mut Parts, bytes: &Output, log: &mut L)
    requires { (k : Kernel) × RepresentsKernel parts.old k × CanServe k }
    ensures left { (k : Kernel) → RepresentsKernel parts.old k → CanServe k
        → Leaves parts.new
        (outside bytes.now (L.noted log.old) (L.has_failed log.old))
        (outside bytes.now (L.noted log.new) (L.has_failed log.new)) (tick k) }
    ensures keys { parts.new.keys.keys ≡ parts.old.keys.keys }
{
    if parts.step % u64::from(parts.period) == 0 {
        clock_tick(&mut parts.store, log);
    }
}

/// The key that is due is typed, and the first byte that is typed ahead meets the first packet that waits for one.
pub(crate) fn key<L: EventLog>(parts: &mut Parts, bytes: &Output, log: &mut L)
    requires { (k : Kernel) × RepresentsKernel parts.old k × CanDispatch k.lists k.regs }
    ensures left { (k : Kernel) → RepresentsKernel parts.old k → CanDispatch k.lists k.regs
        → Leaves parts.new
        (outside bytes.now (L.noted log.old) (L.has_failed log.old))
        (outside bytes.now (L.noted log.new) (L.has_failed log.new)) (key k) }
    ensures keys { parts.new.keys.keys ≡ parts.old.keys.keys }
{
    enter_key(parts);
    parts.tty.meet(&mut parts.store, log);
}

// Where the first key still to come is due by now, it is typed.
fn enter_key(parts: &mut Parts)
    ensures typed { (k : Kernel) → RepresentsKernel parts.old k
        → RepresentsKernel parts.new (with_key_typed k) }
    ensures keys { parts.new.keys.keys ≡ parts.old.keys.keys }
{
    if let Some((due, byte)) = parts.keys.first() {
        if u64::from(due) <= parts.step {
            parts.keys.advance();
            parts.tty.enter(byte);
        }
    }
}

/// The first packet that waits for the output device is served.
pub(crate) fn output<L: EventLog>(parts: &mut Parts, bytes: &mut Output, log: &mut L)
    requires represents { (k : Kernel) × RepresentsKernel parts.old k × CanDispatch k.lists k.regs }
    requires room_for_byte { length bytes.old < 8192 }
    ensures left { (k : Kernel) → RepresentsKernel parts.old k → CanDispatch k.lists k.regs
        → Leaves parts.new
        (outside bytes.old (L.noted log.old) (L.has_failed log.old))
        (outside bytes.new (L.noted log.new) (L.has_failed log.new)) (output k) }
    ensures keys { parts.new.keys.keys ≡ parts.old.keys.keys }
{
    finish_output(&mut parts.store, bytes, log);
}

/// The first ready task runs.
pub(crate) fn dispatch<L: EventLog>(parts: &mut Parts, bytes: &Output, log: &mut L)
    requires { (k : Kernel) × RepresentsKernel parts.old k × CanDispatch k.lists k.regs }
    ensures left { (k : Kernel) → RepresentsKernel parts.old k → CanDispatch k.lists k.regs
        → Leaves parts.new
        (outside bytes.now (L.noted log.old) (L.has_failed log.old))
        (outside bytes.now (L.noted log.new) (L.has_failed log.new)) (dispatch k) }
    ensures keys { parts.new.keys.keys ≡ parts.old.keys.keys }
{
    switch(&mut parts.store, &mut parts.regs, &mut parts.kinds, log);
}
