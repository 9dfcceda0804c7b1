// Fewer steps.
ghost use Rattle.std.specs.Prelude.{◌≡◌, ◌≤◌, ◌-◌, OnOk};
ghost use Rattle.session_text.specs.Canonical.{IsLawful};
ghost use Rattle.tripos_machine.specs.State.{steps_of};
ghost use Rattle.show_run.specs.TypedWords.Runs.{Boots, IsAfter, IsRun};

use crate::typed_words::addresses::push_line_at;
use crate::typed_words::cases::Case;
use crate::typed_words::debuggees::Debuggee;
use crate::typed_words::lines::{keep_line, push_place, push_refusal};
use crate::typed_words::machines::machine_after;
use crate::typed_words::registers::is_address;
use debugger::{Order, order_of};
use module_text::{after_word, number, split_line};
use std::alloc::{AllocError, Global};
use tool_texts::Said::{Bytes, Number};
use tool_texts::push_sentence;

/// Goes back so many steps, or to the start. The same run takes so many fewer from the boot, so there is no limit. Where the word is no
/// number, the debugger says what is wrong.
pub fn go_back(
    alloc: Global,
    case: &Case,
    debuggee: &mut Debuggee,
    word: &[u8],
    text: &mut Vec<u8>,
) -> Result<(), AllocError>
    requires lawful { IsLawful case.now.session }
    requires run { IsRun case.now.session debuggee.old.machine.state }
    ensures run { OnOk result (IsRun case.now.session debuggee.new.machine.state) }
    ensures stops { debuggee.new.stops ≡ debuggee.old.stops }
{
    if is_address(word) {
        if let Some(n) = number(word) {
            return go_back_steps(alloc, case, debuggee, n, text);
        }
    }
    let mut line = Vec::new(alloc);
    push_sentence(&mut line, &[Bytes(b"BACK "), Bytes(word)])?;
    match order_of(0, line.as_slice()) {
        Ok(Order::Back(n)) => go_back_steps(alloc, case, debuggee, u64::from(n), text),
        Ok(_) => Ok(()),
        Err(bad) => push_refusal(text, bad.code),
    }
}

/// Goes back n steps, or to the start.
pub fn go_back_steps(
    alloc: Global,
    case: &Case,
    debuggee: &mut Debuggee,
    n: u64,
    text: &mut Vec<u8>,
) -> Result<(), AllocError>
    requires lawful { IsLawful case.now.session }
    requires run { IsRun case.now.session debuggee.old.machine.state }
    ensures steps { OnOk result (IsAfter case.now.session
        (steps_of debuggee.old.machine.state - n) debuggee.new.machine.state) }
    ensures run { OnOk result (IsRun case.now.session debuggee.new.machine.state) }
    ensures stops { debuggee.new.stops ≡ debuggee.old.stops }
{
    let taken = debuggee.machine.steps();
    if taken < n {
        push_sentence(text, &[Bytes(b"? no more\n")])?;
    }
    return_to(alloc, case, debuggee, taken.saturating_sub(n))?;
    push_return(alloc, case, debuggee, text)
}

// Brings the machine to where it is after so many steps.
fn return_to(
    alloc: Global,
    case: &Case,
    debuggee: &mut Debuggee,
    steps: u64,
) -> Result<(), AllocError>
    requires lawful { IsLawful case.now.session }
    requires boots { Boots case.now.session }
    requires few { steps ≤ case.now.session.go }
    ensures state { OnOk result (IsAfter case.now.session steps debuggee.new.machine.state) }
    ensures stops { debuggee.new.stops ≡ debuggee.old.stops }
{
    debuggee.machine = machine_after(alloc, &case.session, steps)?;
    debuggee.lines = lines_of_stops(alloc, debuggee.lines.as_slice())?;
    let mut line = Vec::new(alloc);
    push_sentence(&mut line, &[Bytes(b"STEP "), Number(steps)])?;
    keep_line(&mut debuggee.lines, line.as_slice())
}

// Those of the lines that set breakpoints or take them away.
fn lines_of_stops(alloc: Global, lines: &[u8]) -> Result<Vec<u8>, AllocError> {
    let mut kept = Vec::new(alloc);
    let mut rest = lines;
    while let Some((line, others)) = split_line(rest) {
        if after_word(b"BP ", line).is_some() || after_word(b"UNBP ", line).is_some() {
            keep_line(&mut kept, line)?;
        }
        rest = others;
    }
    Ok(kept)
}

// Shows where the machine is.
fn push_return(
    alloc: Global,
    case: &Case,
    debuggee: &Debuggee,
    text: &mut Vec<u8>,
) -> Result<(), AllocError> {
    let machine = &debuggee.machine;
    if machine.stop().is_some() {
        return push_sentence(text, &[Bytes(b"\n")]);
    }
    push_place(alloc, machine, text)?;
    push_line_at(alloc, case, machine, u64::from(machine.regs().pc), text)
}
