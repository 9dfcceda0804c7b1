// A guest's turn: it executes an instruction, makes a call, or its function has returned.
ghost use Rattle.std.specs.Prelude.{◌≡◌, ◌<◌, Ok, length};
ghost use Rattle.kernel_model.specs.KernelRecord.HoldsLists.{HoldsLists};
ghost use Rattle.kernel_model.specs.KernelRecord.Lists.{Lists};
ghost use Rattle.kernel_calls.specs.CallAnswers.Callers.{HasCaller};
ghost use Rattle.kernel_calls.specs.CoroutineCalls.SwitchChange.{IsSwitched};
ghost use Rattle.kernel_calls.specs.CallAnswers.Outside.{outside};
ghost use Rattle.kernel_calls.specs.Calls.{kernel_call};
ghost use Rattle.guest_turns.specs.GuestTurn.{IsTurned, called, end_of_call, returned, turn_without_reporter};
ghost use Rattle.kernel_model.specs.KernelRecord.ChangedStore.{HasKeeper};

use crate::execute_guest;
use byte_streams::Output;
use instruction_set::{Fault, Outcome};
use kernel_calls::{CallOutcome, call, caller, ended};
use kernel_lists::{EventLog, TcbField, field, set_field};
use kernel_model::KindKeeper;
use kernel_model::numbers::DEAD;
use word_store::{Regs, Store};

/// The fault of a read outside the store.
const READ_OUTSIDE: u32 = 3;

/// The fault of a call that does not exist.
const UNKNOWN_CALL: u32 = 7;

/// How a guest's turn ends.
#[derive(Clone, Copy)]
pub enum TurnEnd {
    /// The step goes on.
    Goes,
    /// The machine stops with the result.
    Quits(u32),
    /// The machine stops with the fault, which changed nothing.
    Faults(Fault),
}

/// Does what the running guest does in one step, before the clock, the devices and dispatch. Its instruction is executed; at a
/// `SYS` the call is made. Where PC is 0 its function has returned: in its root the task is dead then, and in a coroutine the
/// parent goes on. A fault stops the machine: this is the turn in a machine without a task that reports faults.
pub fn guest_turn<Q: KindKeeper, L: EventLog>(
    store: &mut Store,
    regs: &mut Regs,
    kinds: &mut Q,
    bytes: &mut Output,
    log: &mut L,
) -> TurnEnd
    requires byte { regs.old.c < 256 }
    requires caller { (l : Lists)
        × HasKeeper store.old (Q.tells kinds.old) (Q.room kinds.old) l × HasCaller l }
    requires room_for_byte { length bytes.old < 8192 }
    ensures turned { (l : Lists) → HasKeeper store.old (Q.tells kinds.old) (Q.room kinds.old) l
        → HasCaller l
        → IsTurned store.new regs.new (Q.tells kinds.new)
        (outside bytes.old (L.noted log.old) (L.has_failed log.old))
        (outside bytes.new (L.noted log.new) (L.has_failed log.new))
        result (turn_without_reporter store.old l regs.old) }
    ensures room { Q.room kinds.new ≡ Q.room kinds.old }
{
    match execute_guest(store, regs, kinds) {
        Outcome::Next => TurnEnd::Goes,
        Outcome::Sys => make_call(store, regs, kinds, bytes, log),
        Outcome::Returned => {
            end_function(store, regs);
            TurnEnd::Goes
        }
        Outcome::Fault(fault) => TurnEnd::Faults(fault),
    }
}

// Makes the call of the SYS at PC.
fn make_call<Q: KindKeeper, L: EventLog>(
    store: &mut Store,
    regs: &mut Regs,
    kinds: &mut Q,
    bytes: &mut Output,
    log: &mut L,
) -> TurnEnd
    requires caller { (l : Lists)
        × HasKeeper store.old (Q.tells kinds.old) (Q.room kinds.old) l × HasCaller l }
    requires room_for_byte { length bytes.old < 8192 }
    ensures turned { (l : Lists) → HasKeeper store.old (Q.tells kinds.old) (Q.room kinds.old) l
        → HasCaller l
        → IsTurned store.new regs.new (Q.tells kinds.new)
        (outside bytes.old (L.noted log.old) (L.has_failed log.old))
        (outside bytes.new (L.noted log.new) (L.has_failed log.new))
        result (called store.old regs.old.pc (kernel_call store.old l regs.old)) }
    ensures room { Q.room kinds.new ≡ Q.room kinds.old }
{
    let place = regs.pc;
    let outcome = call(store, regs, kinds, bytes, log);
    end_of_call(place, outcome)
}

// How the turn ends of which the call, of the SYS at the place, ended so.
fn end_of_call(place: u32, outcome: CallOutcome) -> TurnEnd
    ensures { result ≡ end_of_call place outcome }
{
    match outcome {
        CallOutcome::Done | CallOutcome::Waits => TurnEnd::Goes,
        CallOutcome::Quit(result) => TurnEnd::Quits(result),
        CallOutcome::Unknown => TurnEnd::Faults(Fault {
            code: UNKNOWN_CALL,
            address: place,
        }),
        CallOutcome::Outside(address) => TurnEnd::Faults(Fault {
            code: READ_OUTSIDE,
            address,
        }),
    }
}

// The function at the bottom of the stack has returned.
fn end_function(store: &mut Store, regs: &mut Regs)
    requires { (l : Lists) × HoldsLists store.old l × HasCaller l }
    ensures { (l : Lists) → HoldsLists store.old l → HasCaller l
        → IsSwitched store.old store.new l regs.new (Ok tt) (returned l regs.old) }
{
    let task = caller(store);
    if field(store, task, TcbField::CurrentCo) != 0 {
        ended(store, regs);
        return;
    }
    let state = field(store, task, TcbField::State);
    set_field(store, task, TcbField::State, state + DEAD);
}
