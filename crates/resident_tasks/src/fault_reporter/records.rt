// A fault of a guest is recorded.
ghost use Rattle.std.specs.Prelude.{◌≡◌};
ghost use Rattle.kernel_model.specs.KernelRecord.HoldsLists.{HoldsLists};
ghost use Rattle.kernel_model.specs.KernelRecord.Lists.{Lists};
ghost use Rattle.resident_tasks.specs.FaultReporter.Recorded.{CanRecord, OwnsSame, held_with, recorded, recorded_events};
ghost use Rattle.kernel_model.specs.KernelRecord.LoggedEvents.{LogsAll};

use crate::fault_reporter::packet::send_packet;
use instruction_set::Fault;
use kernel_calls::caller;
use kernel_lists::{EventLog, TcbField, field, set_field};
use kernel_model::numbers::{FAULT_ADDRESS, FAULT_WORD, HELD};
use word_store::Store;

/// Records a fault of the guest that runs, in a machine with a task that reports faults (2): the guest is held, its fault words are
/// the code, from 1 to 8 and not 6, and the address, and where the fault packet is on no queue it comes to task 2 from the guest.
/// The guest still runs, and no registers change. The same words are the kernel's as before.
pub fn record_fault<L: EventLog>(store: &mut Store, fault: Fault, log: &mut L)
    requires { (l : Lists) × HoldsLists store.old l × CanRecord l fault }
    ensures recorded { (l : Lists) → HoldsLists store.old l → CanRecord l fault
        → OwnsSame store.old store.new l (recorded fault l) }
    ensures notes { (l : Lists) → HoldsLists store.old l → CanRecord l fault
        → LogsAll L.EventLog log.old log.new
        (recorded_events fault l) }
{
    hold_with(store, fault);
    send_packet(store, log);
}

// The guest that runs is held, with this fault.
fn hold_with(store: &mut Store, fault: Fault)
    requires { (l : Lists) × HoldsLists store.old l × CanRecord l fault }
    ensures { (l : Lists) → HoldsLists store.old l → CanRecord l fault
        → OwnsSame store.old store.new l (held_with fault l) }
{
    let task = caller(store);
    let state = field(store, task, TcbField::State);
    set_field(store, task, FAULT_ADDRESS, fault.address);
    set_field(store, task, FAULT_WORD, fault.code);
    set_field(store, task, TcbField::State, state % 2 + HELD);
}
