// What the running task does in a step.
ghost use Rattle.std.specs.Prelude.{◌≡◌, ◌<◌, [], length};
ghost use Rattle.ram_disc.specs.Disc.{IsDisc};
ghost use Rattle.kernel_model.specs.KernelRecord.Kernel.{Kernel};
ghost use Rattle.kernel_model.specs.KernelRecord.HoldsLists.{HoldsLists};
ghost use Rattle.kernel_model.specs.KernelRecord.Lists.{Lists};
ghost use Rattle.kernel_calls.specs.CallAnswers.Outside.{outside};
ghost use Rattle.kernel_machine.specs.RunningMachine.RepresentedKernels.{RepresentsKernel};
ghost use Rattle.kernel_machine.specs.KernelSteps.GuestSteps.{guest_step, is_recorded, stop_by};
ghost use Rattle.kernel_machine.specs.KernelSteps.Parts.{CanTurn};
ghost use Rattle.kernel_machine.specs.KernelSteps.Step.{turn};
ghost use Rattle.kernel_machine.specs.RunningMachine.Private.Leaves.{Leaves, RunsGuest};

use crate::running_machine::Parts;
use crate::running_machine::residents::resident;
use byte_streams::Output;
use guest_turns::{TurnEnd, guest_turn};
use instruction_set::Fault;
use kernel_lists::{EventLog, FIRST_GUEST, RootField, TcbField, field, find, root};
use kernel_model::Stop;
use kernel_model::numbers::REPORTER;
use resident_tasks::record_fault;
use word_store::Store;

/// The fault of a write into a word of the kernel's.
const KERNEL_WORD: u32 = 6;

/// The running guest's instruction, call, or end of its function, or the running resident's turn; nothing where nobody runs. The
/// answer is why the machine stops, if it does.
pub(crate) fn turn<L: EventLog>(parts: &mut Parts, bytes: &mut Output, log: &mut L) -> Option<Stop>
    requires represents { (k : Kernel) × RepresentsKernel parts.old k × CanTurn k }
    requires empty { bytes.old ≡ [] }
    ensures turned { (k : Kernel) → RepresentsKernel parts.old k → CanTurn k
        → Leaves parts.new
        (outside bytes.old (L.noted log.old) (L.has_failed log.old))
        (outside bytes.new (L.noted log.new) (L.has_failed log.new)) (turn k) }
    ensures stop { (k : Kernel) → RepresentsKernel parts.old k → CanTurn k
        → result ≡ (turn k).kernel.stop }
    ensures keys { parts.new.keys.keys ≡ parts.old.keys.keys }
    ensures disc { IsDisc parts.new.disc }
    ensures room { length bytes.new < 8192 }
{
    let task = running(&parts.store);
    if task < FIRST_GUEST {
        return resident(parts, task, bytes, log);
    }
    guest(parts, task, bytes, log)
}

// The running guest's turn. Where a task reports faults, a fault is recorded, unless it is a write into a word of the kernel's.
fn guest<L: EventLog>(parts: &mut Parts, task: u32, bytes: &mut Output, log: &mut L) -> Option<Stop>
    requires represents { (k : Kernel) × RepresentsKernel parts.old k × RunsGuest task k }
    requires empty { bytes.old ≡ [] }
    ensures turned { (k : Kernel) → RepresentsKernel parts.old k → RunsGuest task k
        → Leaves parts.new
        (outside bytes.old (L.noted log.old) (L.has_failed log.old))
        (outside bytes.new (L.noted log.new) (L.has_failed log.new)) (guest_step k) }
    ensures stop { (k : Kernel) → RepresentsKernel parts.old k → RunsGuest task k
        → result ≡ (guest_step k).kernel.stop }
    ensures keys { parts.new.keys.keys ≡ parts.old.keys.keys }
{
    let end = guest_turn(
        &mut parts.store,
        &mut parts.regs,
        &mut parts.kinds,
        bytes,
        log,
    );
    let TurnEnd::Faults(fault) = end else {
        return stop_by(task, end);
    };
    if !is_recorded(&parts.store, fault) {
        return stop_by(task, end);
    }
    record_fault(&mut parts.store, fault, log);
    None
}

// Whether the fault is recorded, and stops nothing.
fn is_recorded(store: &Store, fault: Fault) -> bool
    requires { (l : Lists) × HoldsLists store.now l }
    ensures { (l : Lists) → HoldsLists store.now l → result ≡ is_recorded l fault }
{
    if find(store, REPORTER).is_none() {
        return false;
    }
    fault.code != KERNEL_WORD
}

/// The number of the task that runs, or 0.
pub(crate) fn running(store: &Store) -> u32
    requires { (l : Lists) × HoldsLists store.now l }
    ensures { (l : Lists) → HoldsLists store.now l → result ≡ l.running }
{
    let task = root(store, RootField::Running);
    if task == 0 {
        return 0;
    }
    field(store, task, TcbField::Id)
}

// Why a turn of this task that ends so stops the machine.
fn stop_by(task: u32, end: TurnEnd) -> Option<Stop>
    ensures { result ≡ stop_by task end }
{
    match end {
        TurnEnd::Goes => None,
        TurnEnd::Quits(result) => Some(Stop::Quit(result)),
        TurnEnd::Faults(fault) => Some(Stop::Fault {
            code: fault.code,
            address: fault.address,
            task,
        }),
    }
}
