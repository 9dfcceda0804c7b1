// Steps over a call, and on to the end of a function.
ghost use Rattle.std.specs.Prelude.{◌≡◌, OnOk};
ghost use Rattle.session_text.specs.Canonical.{IsLawful};
ghost use Rattle.show_run.specs.TypedWords.Runs.{IsRun};

use crate::typed_words::cases::Case;
use crate::typed_words::debuggees::Debuggee;
use crate::typed_words::frames::frame_at;
use crate::typed_words::gathered::Gathered;
use crate::typed_words::lines::{arrive, obey_order};
use crate::typed_words::machines::{go_to, machine_after};
use crate::typed_words::sentences::push_said;
use byte_streams::SinkFault;
use debugger::{Order, gather_instructions};
use module_text::split_line;
use session_text::{Session, number_field};
use std::alloc::{AllocError, Global};
use tool_texts::Said::Bytes;
use tripos_machine::Machine;
use word_store::Store;

/// How often the machine may come to a place in another frame or another task before it is not waited for any longer.
const MOST_TIMES: u32 = 1000;

/// Where a function goes back to.
#[derive(Clone, Copy)]
pub struct Return {
    /// The byte address of the next instruction then.
    pub pc: u32,
    /// The frame then, as the address of a word.
    pub frame: u32,
    /// The number of the task that runs.
    pub task: u32,
}

/// What is at the next instruction.
#[derive(Clone, Copy)]
pub enum Next {
    /// No call of a function.
    NoCall,
    /// A call of a function, and the instruction at this byte address after it.
    Call(u32),
    /// A call of a function, and the end of the store after it.
    LastCall,
}

/// A step, or where the next instruction calls a function, on until that has returned.
pub fn step_over(
    alloc: Global,
    case: &Case,
    debuggee: &mut Debuggee,
    text: &mut Vec<u8>,
) -> Result<(), AllocError>
    requires lawful { IsLawful case.now.session }
    requires run { IsRun case.now.session debuggee.old.machine.state }
    ensures run { OnOk result (IsRun case.now.session debuggee.new.machine.state) }
    ensures stops { OnOk result (debuggee.new.stops ≡ debuggee.old.stops) }
{
    let regs = debuggee.machine.regs();
    match next_at(alloc, debuggee.machine.store(), regs.pc)? {
        Next::Call(pc) => {
            let place = Return {
                pc,
                frame: regs.p,
                task: debuggee.machine.running(),
            };
            go_until(alloc, case, debuggee, place, text)
        }
        Next::NoCall => obey_order(alloc, case, debuggee, Order::Step(1), b"STEP 1", text),
        Next::LastCall => push_said(text, &[Bytes(b"no instruction comes after this call")]),
    }
}

// What is at an address of a store, by its listing.
fn next_at(alloc: Global, store: &Store, pc: u32) -> Result<Next, AllocError> {
    let mut gathered = Gathered::new(alloc);
    match gather_instructions(store, pc, 2, &mut gathered.sink, &mut gathered.pending) {
        Ok(()) => {
            let listing = gathered.take(alloc)?;
            Ok(next_listed(listing.as_slice()))
        }
        Err(SinkFault) => Err(AllocError),
    }
}

// What the first of two lines of a listing is.
fn next_listed(listing: &[u8]) -> Next {
    let Some((first, others)) = split_line(listing) else {
        return Next::NoCall;
    };
    if !is_call(first) {
        return Next::NoCall;
    }
    match listed_address(others) {
        Some(pc) => Next::Call(pc),
        None => Next::LastCall,
    }
}

// Whether the line of a listing calls a function: so do all instructions whose name begins with a K.
fn is_call(line: &[u8]) -> bool {
    match number_field(line) {
        Some((_, instruction)) => matches!(instruction, [b'K', ..]),
        None => false,
    }
}

// The address in the first line of a listing.
fn listed_address(listing: &[u8]) -> Option<u32> {
    let (address, _) = number_field(listing)?;
    u32::try_from(address).ok()
}

/// On until the function that runs has returned to its caller.
pub fn finish(
    alloc: Global,
    case: &Case,
    debuggee: &mut Debuggee,
    text: &mut Vec<u8>,
) -> Result<(), AllocError>
    requires lawful { IsLawful case.now.session }
    requires run { IsRun case.now.session debuggee.old.machine.state }
    ensures run { OnOk result (IsRun case.now.session debuggee.new.machine.state) }
    ensures stops { OnOk result (debuggee.new.stops ≡ debuggee.old.stops) }
{
    match return_of(&debuggee.machine) {
        Some(place) => go_until(alloc, case, debuggee, place, text),
        None => push_said(text, &[Bytes(b"no function has called this one")]),
    }
}

// Where the function that runs goes back to, by its frame.
fn return_of(machine: &Machine) -> Option<Return> {
    let frame = frame_at(machine.store(), machine.regs().p)?;
    Some(Return {
        pc: frame.back,
        frame: frame.caller,
        task: machine.running(),
    })
}

// Goes on until the task is there with this frame, or at a breakpoint, or the run stops.
#[tactic(auto, using(crate::proofs::TypedWords::OneStop::removed_again))]
fn go_until(
    alloc: Global,
    case: &Case,
    debuggee: &mut Debuggee,
    place: Return,
    text: &mut Vec<u8>,
) -> Result<(), AllocError>
    requires lawful { IsLawful case.now.session }
    requires run { IsRun case.now.session debuggee.old.machine.state }
    ensures run { OnOk result (IsRun case.now.session debuggee.new.machine.state) }
    ensures stops { OnOk result (debuggee.new.stops ≡ debuggee.old.stops) }
{
    let begun = debuggee.machine.steps();
    let is_set = debuggee.stops.has(place.pc);
    if debuggee.stops.add(place.pc) {
        return push_no_room(text);
    }
    let mut gathered = Gathered::new(alloc);
    let is_there = waits_for(&case.session, debuggee, place, &mut gathered)?;
    if !is_set {
        debuggee.stops.remove(place.pc);
    }
    if is_there {
        return arrive(alloc, case, debuggee, begun, &mut gathered, text);
    }
    debuggee.machine = machine_after(alloc, &case.session, begun)?;
    push_too_often(text)
}

fn push_no_room(text: &mut Vec<u8>) -> Result<(), AllocError> {
    push_said(
        text,
        &[Bytes(b"all 16 breakpoints are set, and this takes one more; d PLACE takes one away")],
    )
}

fn push_too_often(text: &mut Vec<u8>) -> Result<(), AllocError> {
    push_said(
        text,
        &[Bytes(
            b"it came to this place 1,000 times in another frame or another task, and is not waited for any longer",
        )],
    )
}

// Goes from breakpoint to breakpoint until the machine is at the place, or elsewhere. The answer is false where it was too often at the place
// with another frame or in another task.
fn waits_for(
    session: &Session,
    debuggee: &mut Debuggee,
    place: Return,
    gathered: &mut Gathered,
) -> Result<bool, AllocError>
    requires lawful { IsLawful session.now }
    requires run { IsRun session.now debuggee.old.machine.state }
    ensures run { OnOk result (IsRun session.now debuggee.new.machine.state) }
    ensures stops { debuggee.new.stops ≡ debuggee.old.stops }
{
    for turn in 0..MOST_TIMES {
        go_to(session, &mut debuggee.machine, &debuggee.stops, gathered)?;
        if !is_elsewhere(&debuggee.machine, place) {
            return Ok(true);
        }
    }
    Ok(false)
}

// Whether a machine is at a place, but with another frame or in another task.
fn is_elsewhere(machine: &Machine, place: Return) -> bool {
    let regs = machine.regs();
    machine.stop().is_none()
        && regs.pc == place.pc
        && (regs.p != place.frame || machine.running() != place.task)
}
