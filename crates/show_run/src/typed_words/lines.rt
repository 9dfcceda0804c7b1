// The debugger's own lines, as words.
ghost use Rattle.std.specs.Prelude.{◌≡◌, ◌++◌, None, Ok, OnOk, false};
ghost use Rattle.session_text.specs.Canonical.{IsLawful};
ghost use Rattle.debugger.specs.Debugged.{Debugging, line_obeyed, obeyed};
ghost use Rattle.debugger.specs.OrderLines.{is_back};
ghost use Rattle.debugger.specs.Orders.{order_of};
ghost use Rattle.show_run.specs.TypedWords.Runs.{Boots, IsRun, limits_of};
ghost use Rattle.show_run.specs.TypedWords.ShownBytes.{GoesOnFrom, shown};

use crate::typed_words::cases::Case;
use crate::typed_words::debuggees::Debuggee;
use crate::typed_words::gathered::Gathered;
use crate::typed_words::machines::{machine_by_lines, obeyed};
use crate::typed_words::sentences::{push_said, push_shown};
use crate::typed_words::stops::push_stop;
use byte_streams::SinkFault;
use debugger::{Order, gather_place, order_of};
use std::alloc::{AllocError, Global};
use tool_texts::Said::{Bytes, Number};
use tool_texts::push_sentence;
use tripos_machine::Machine;

/// Does what a line asks for, and adds what it shows. The answer is whether it asks for something. But for a line that undoes steps, the machine and
/// the breakpoints are then as the debugger's definition says of the line.
pub fn obey(
    alloc: Global,
    case: &Case,
    debuggee: &mut Debuggee,
    line: &[u8],
    text: &mut Vec<u8>,
) -> Result<bool, AllocError>
    requires lawful { IsLawful case.now.session }
    requires run { IsRun case.now.session debuggee.old.machine.state }
    ensures run { OnOk result (IsRun case.now.session debuggee.new.machine.state) }
    ensures state { let d : Debugging = record { state = debuggee.old.machine.state; stops = debuggee.old.stops; past = None } in
        let told = line_obeyed (limits_of case.now.session) (order_of 0 line.now) d in
        OnOk result (is_back (order_of 0 line.now) ≡ false → debuggee.new.machine.state ≡ told.after.state) }
    ensures stops { let d : Debugging = record { state = debuggee.old.machine.state; stops = debuggee.old.stops; past = None } in
        let told = line_obeyed (limits_of case.now.session) (order_of 0 line.now) d in
        OnOk result (debuggee.new.stops ≡ told.after.stops) }
{
    match order_of(0, line) {
        Ok(order) => {
            obey_order(alloc, case, debuggee, order, line, text)?;
            Ok(true)
        }
        Err(bad) => {
            push_refusal(text, bad.code)?;
            Ok(false)
        }
    }
}

/// Says why a line asks for nothing, by the code with which the debugger refuses it.
pub fn push_refusal(text: &mut Vec<u8>, code: u32) -> Result<(), AllocError> {
    let why: &[u8] = if code == 1 {
        b"no line of the debugger has this form"
    } else {
        b"number out of range"
    };
    push_said(
        text,
        &[
            Bytes(why),
            Bytes(b" (code "),
            Number(u64::from(code)),
            Bytes(b")"),
        ],
    )
}

/// Does an order that a line asks for.
pub fn obey_order(
    alloc: Global,
    case: &Case,
    debuggee: &mut Debuggee,
    order: Order,
    line: &[u8],
    text: &mut Vec<u8>,
) -> Result<(), AllocError>
    requires lawful { IsLawful case.now.session }
    requires run { IsRun case.now.session debuggee.old.machine.state }
    ensures run { OnOk result (IsRun case.now.session debuggee.new.machine.state) }
    ensures state { let d : Debugging = record { state = debuggee.old.machine.state; stops = debuggee.old.stops; past = None } in
        OnOk result (is_back (Ok order) ≡ false
        → debuggee.new.machine.state ≡ (obeyed (limits_of case.now.session) order d).after.state) }
    ensures stops { let d : Debugging = record { state = debuggee.old.machine.state; stops = debuggee.old.stops; past = None } in
        OnOk result (debuggee.new.stops ≡ (obeyed (limits_of case.now.session) order d).after.stops) }
    ensures text { let d : Debugging = record { state = debuggee.old.machine.state; stops = debuggee.old.stops; past = None } in
        OnOk result (is_back (Ok order) ≡ false
        → GoesOnFrom (text.old.items ++ shown (obeyed (limits_of case.now.session) order d).bytes) text.new.items) }
{
    if let Order::Back(_) = order {
        return undo(alloc, case, debuggee, line, text);
    }
    let begun = debuggee.machine.steps();
    let told = obeyed(alloc, &case.session, debuggee, order)?;
    push_shown(text, told.as_slice())?;
    let mut more = Vec::new(alloc);
    note_order(alloc, case, debuggee, begun, order, line, &mut more)?;
    push_sentence(text, &[Bytes(more.as_slice())])
}

// Notes the line of an order that was obeyed, where it has led to the machine, and shows where steps have led, after so many.
fn note_order(
    alloc: Global,
    case: &Case,
    debuggee: &mut Debuggee,
    begun: u64,
    order: Order,
    line: &[u8],
    text: &mut Vec<u8>,
) -> Result<(), AllocError>
    ensures machine { debuggee.new.machine ≡ debuggee.old.machine }
    ensures stops { debuggee.new.stops ≡ debuggee.old.stops }
{
    match order {
        Order::Step(n) => {
            let is_stuck = n > 0 && debuggee.machine.steps() == begun;
            note_arrival(alloc, case, debuggee, is_stuck, line, text)
        }
        Order::Continue => {
            let is_stuck = debuggee.machine.steps() == begun;
            note_arrival(alloc, case, debuggee, is_stuck, line, text)
        }
        Order::Break(_) | Order::Unbreak(_) => keep_line(&mut debuggee.lines, line),
        _ => Ok(()),
    }
}

/// Notes a line that has led to the machine.
pub fn keep_line(lines: &mut Vec<u8>, line: &[u8]) -> Result<(), AllocError> {
    push_sentence(lines, &[Bytes(line), Bytes(b"\n")])
}

/// Shows what is gathered of the way to where the machine is, and where that is, and notes the steps that have led there.
pub fn arrive(
    alloc: Global,
    case: &Case,
    debuggee: &mut Debuggee,
    begun: u64,
    gathered: &mut Gathered,
    text: &mut Vec<u8>,
) -> Result<(), AllocError>
    ensures machine { debuggee.new.machine ≡ debuggee.old.machine }
    ensures stops { debuggee.new.stops ≡ debuggee.old.stops }
{
    let told = gathered.take(alloc)?;
    push_shown(text, told.as_slice())?;
    push_place(alloc, &debuggee.machine, text)?;
    let steps = debuggee.machine.steps().saturating_sub(begun);
    let mut line = Vec::new(alloc);
    push_sentence(&mut line, &[Bytes(b"STEP "), Number(steps)])?;
    note_arrival(alloc, case, debuggee, false, line.as_slice(), text)
}

/// Shows where the machine is, as the debugger's lines do.
pub fn push_place(alloc: Global, machine: &Machine, text: &mut Vec<u8>) -> Result<(), AllocError> {
    let mut gathered = Gathered::new(alloc);
    match gather_place(machine, 0, &mut gathered.sink, &mut gathered.pending) {
        Ok(()) => {
            let place = gathered.take(alloc)?;
            push_sentence(text, &[Bytes(place.as_slice())])
        }
        Err(SinkFault) => Err(AllocError),
    }
}

// Notes the line that has led to where the machine is, and shows the line of assembly there, or why it has stopped.
fn note_arrival(
    alloc: Global,
    case: &Case,
    debuggee: &mut Debuggee,
    is_stuck: bool,
    line: &[u8],
    text: &mut Vec<u8>,
) -> Result<(), AllocError>
    ensures machine { debuggee.new.machine ≡ debuggee.old.machine }
    ensures stops { debuggee.new.stops ≡ debuggee.old.stops }
{
    keep_line(&mut debuggee.lines, line)?;
    push_stop(alloc, case, &debuggee.machine, is_stuck, text)
}

// Undoes steps, as many as the debugger's history keeps.
fn undo(
    alloc: Global,
    case: &Case,
    debuggee: &mut Debuggee,
    line: &[u8],
    text: &mut Vec<u8>,
) -> Result<(), AllocError>
    requires lawful { IsLawful case.now.session }
    requires boots { Boots case.now.session }
    ensures run { OnOk result (IsRun case.now.session debuggee.new.machine.state) }
    ensures stops { debuggee.new.stops ≡ debuggee.old.stops }
{
    let (_, before) = machine_by_lines(alloc, &case.session, debuggee.lines.as_slice())?;
    keep_line(&mut debuggee.lines, line)?;
    let (machine, told) = machine_by_lines(alloc, &case.session, debuggee.lines.as_slice())?;
    debuggee.machine = machine;
    push_shown(text, bytes_from(told.as_slice(), before.len()))?;
    push_stop(alloc, case, &debuggee.machine, false, text)
}

// The bytes from this one on.
fn bytes_from(bytes: &[u8], first: usize) -> &[u8] {
    bytes.split_at(first.min(bytes.len())).1
}
