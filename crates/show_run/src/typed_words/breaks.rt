// Breakpoints.
ghost use Rattle.std.specs.Prelude.{◌≡◌, IsTrue, IfOk, OnOk};
ghost use Rattle.session_text.specs.Canonical.{IsLawful};
ghost use Rattle.show_run.specs.TypedWords.Changes.{is_set, is_stop};
ghost use Rattle.show_run.specs.TypedWords.Runs.{IsRun};

use crate::typed_words::addresses::{addresses_named, assembly_at, digits_of};
use crate::typed_words::assembly_lines::is_data;
use crate::typed_words::cases::Case;
use crate::typed_words::debuggees::Debuggee;
use crate::typed_words::lines::obey;
use crate::typed_words::registers::is_address;
use crate::typed_words::sentences::push_said;
use debugger::Breakpoints;
use module_text::number;
use std::alloc::{AllocError, Global};
use tool_texts::Said::{Bytes, Number};
use tool_texts::push_sentence;

/// Whether a breakpoint is set or taken away.
#[derive(Clone, Copy)]
pub enum Change {
    /// It is set.
    Set,
    /// It is taken away.
    Removed,
}

/// Sets or takes away a breakpoint at each address of a place: a program that two tasks run is there twice.
pub fn change_at(
    alloc: Global,
    case: &Case,
    debuggee: &mut Debuggee,
    change: Change,
    place: &[u8],
    text: &mut Vec<u8>,
) -> Result<(), AllocError>
    requires lawful { IsLawful case.now.session }
    requires run { IsRun case.now.session debuggee.old.machine.state }
    ensures { OnOk result (IsRun case.now.session debuggee.new.machine.state) }
{
    if is_address(place) {
        change_stop(alloc, case, debuggee, change, place, place, text)?;
        return Ok(());
    }
    let addresses = addresses_named(alloc, case, &debuggee.machine, place, text)?;
    let mut are_all_changed = true;
    for address in addresses.as_slice() {
        let digits = digits_of(alloc, *address)?;
        let digits = digits.as_slice();
        let is_changed = change_stop(alloc, case, debuggee, change, place, digits, text)?;
        are_all_changed = are_all_changed && is_changed;
    }
    if addresses.len() <= 1 || !are_all_changed {
        return Ok(());
    }
    push_each(text, change, place, addresses.as_slice())
}

// Sets or takes away a breakpoint at a byte address. The answer is whether this is done: there may be no room for one more.
fn change_stop(
    alloc: Global,
    case: &Case,
    debuggee: &mut Debuggee,
    change: Change,
    place: &[u8],
    digits: &[u8],
    text: &mut Vec<u8>,
) -> Result<bool, AllocError>
    requires lawful { IsLawful case.now.session }
    requires run { IsRun case.now.session debuggee.old.machine.state }
    ensures run { OnOk result (IsRun case.now.session debuggee.new.machine.state) }
    ensures done { IfOk result (λ is_done. IsTrue is_done → is_stop digits.now debuggee.new.stops ≡ is_set change) }
{
    let mut line = Vec::new(alloc);
    push_sentence(&mut line, &[Bytes(change_word(change)), Bytes(digits)])?;
    if !obey(alloc, case, debuggee, line.as_slice(), text)? {
        return Ok(false);
    }
    if is_set(change) {
        push_note(alloc, case, debuggee, place, digits, text)?;
    }
    Ok(is_stop(digits, &debuggee.stops) == is_set(change))
}

// Whether there is a breakpoint then.
fn is_set(change: Change) -> bool
    ensures { result ≡ is_set change }
{
    matches!(change, Change::Set)
}

// Whether there is a breakpoint at the address that digits say.
fn is_stop(digits: &[u8], stops: &Breakpoints) -> bool
    ensures { result ≡ is_stop digits.now stops.now }
{
    match number(digits) {
        Some(address) => u32::try_from(address).is_ok_and(|a| stops.has(a)),
        None => false,
    }
}

fn change_word(change: Change) -> &'static [u8] {
    match change {
        Change::Set => b"BP ",
        Change::Removed => b"UNBP ",
    }
}

// Notes that data is at a breakpoint, where it is so.
fn push_note(
    alloc: Global,
    case: &Case,
    debuggee: &Debuggee,
    place: &[u8],
    digits: &[u8],
    text: &mut Vec<u8>,
) -> Result<(), AllocError> {
    let Some(address) = number(digits) else {
        return Ok(());
    };
    let line = assembly_at(alloc, case, &debuggee.machine, address)?;
    if is_data(line) {
        return push_data(text, place, digits, line);
    }
    Ok(())
}

fn push_data<'t>(
    text: &mut Vec<u8>,
    place: &'t [u8],
    digits: &'t [u8],
    line: &'t [u8],
) -> Result<(), AllocError> {
    push_said(
        text,
        &[
            Bytes(b"note: "),
            Bytes(place),
            Bytes(b" is at "),
            Bytes(digits),
            Bytes(b", where data is and no instruction: "),
            Bytes(line),
        ],
    )
}

// Says at which addresses a place is.
fn push_each(
    text: &mut Vec<u8>,
    change: Change,
    place: &[u8],
    addresses: &[u64],
) -> Result<(), AllocError> {
    push_sentence(text, &[Bytes(b"debug: "), Bytes(place), Bytes(b" is at ")])?;
    for (i, address) in addresses.iter().enumerate() {
        let before: &[u8] = if i == 0 { b"" } else { b" and at " };
        push_sentence(text, &[Bytes(before), Number(*address)])?;
    }
    let done: &[u8] = match change {
        Change::Set => b": each is set\n",
        Change::Removed => b": each is taken away\n",
    };
    push_sentence(text, &[Bytes(done)])
}
