// The steps that write one word.
ghost use Rattle.std.specs.Prelude.{◌≡◌, ◌<◌, None, OnOk};
ghost use Rattle.kernel_model.specs.KernelRecord.Ranges.{most_steps};
ghost use Rattle.tripos_machine.specs.State.{steps_of, stop_of};
ghost use Rattle.tripos_machine.specs.Step.{step};
ghost use Rattle.session_text.specs.Canonical.{IsLawful};
ghost use Rattle.show_run.specs.TypedWords.Runs.{Boots, IsRun};

use crate::typed_words::addresses::push_line_at;
use crate::typed_words::cases::Case;
use crate::typed_words::debuggees::Debuggee;
use crate::typed_words::gathered::Gathered;
use crate::typed_words::lines::arrive;
use crate::typed_words::machines::machine_after;
use crate::typed_words::sentences::push_said;
use crate::typed_words::told_writes::{place_of_write, push_write};
use crate::word_writes::{gather_boot_write, gather_step_writing};
use byte_streams::{SinkFault, gather};
use module_text::number;
use session_text::Session;
use std::alloc::{AllocError, Global};
use tool_texts::Said::{Bytes, Number};
use tripos_machine::Machine;

/// Goes on to the next step that writes the word at an address, which is given by its digits.
pub fn go_to_write(
    alloc: Global,
    case: &Case,
    debuggee: &mut Debuggee,
    digits: &[u8],
    text: &mut Vec<u8>,
) -> Result<(), AllocError>
    requires lawful { IsLawful case.now.session }
    requires run { IsRun case.now.session debuggee.old.machine.state }
    ensures run { OnOk result (IsRun case.now.session debuggee.new.machine.state) }
    ensures stops { debuggee.new.stops ≡ debuggee.old.stops }
{
    let Some(address) = word_address(digits) else {
        return push_no_address(text, digits);
    };
    let begun = debuggee.machine.steps();
    let mut heard = Gathered::new(alloc);
    let machine = &mut debuggee.machine;
    let told = next_write(alloc, &case.session, machine, address, &mut heard)?;
    if told.is_empty() {
        debuggee.machine = machine_after(alloc, &case.session, begun)?;
        return push_no_write(text, begun, digits);
    }
    push_write(text, told.as_slice())?;
    arrive(alloc, case, debuggee, begun, &mut heard, text)
}

// The address of a word, by its digits.
fn word_address(digits: &[u8]) -> Option<u32> {
    u32::try_from(number(digits)?).ok()
}

fn push_no_address(text: &mut Vec<u8>, digits: &[u8]) -> Result<(), AllocError> {
    push_said(
        text,
        &[
            Bytes(b"the address of a word is a number below 4294967296, and not "),
            Bytes(digits),
        ],
    )
}

fn push_no_write(text: &mut Vec<u8>, steps: u64, digits: &[u8]) -> Result<(), AllocError> {
    push_said(
        text,
        &[
            Bytes(b"no step after "),
            Number(steps),
            Bytes(b" writes the word at "),
            Bytes(digits),
        ],
    )
}

fn push_no_writer(text: &mut Vec<u8>, steps: u64, digits: &[u8]) -> Result<(), AllocError> {
    push_said(
        text,
        &[
            Bytes(b"neither the boot nor a step up to "),
            Number(steps),
            Bytes(b" wrote the word at "),
            Bytes(digits),
        ],
    )
}

// Takes steps up to one that writes the word, and gives the lines of that step: none where no step does. What goes to the console is heard.
fn next_write(
    alloc: Global,
    session: &Session,
    machine: &mut Machine,
    address: u32,
    heard: &mut Gathered,
) -> Result<Vec<u8>, AllocError>
    requires lawful { IsLawful session.now }
    requires run { IsRun session.now machine.old.state }
    ensures { OnOk result (IsRun session.now machine.new.state) }
{
    let mut told = Gathered::new(alloc);
    for turn in machine.steps()..session.go {
        if machine.stop().is_some() || machine.steps() >= session.go {
            return told.take(alloc);
        }
        tell_step(machine, address, &mut told)?;
        hear(machine, heard)?;
        if !told.is_empty() {
            return told.take(alloc);
        }
    }
    told.take(alloc)
}

// Adds what the last step has written to the console.
fn hear(machine: &Machine, heard: &mut Gathered) -> Result<(), AllocError> {
    match gather(&mut heard.sink, &mut heard.pending, machine.output()) {
        Ok(()) => Ok(()),
        Err(SinkFault) => Err(AllocError),
    }
}

// Takes a step, and tells how it writes the word, if it does.
fn tell_step(machine: &mut Machine, address: u32, told: &mut Gathered) -> Result<(), AllocError>
    requires goes { stop_of machine.old.state ≡ None }
    requires steps { steps_of machine.old.state < most_steps }
    ensures { OnOk result (machine.new.state ≡ (step machine.old.state).state) }
{
    match gather_step_writing(address, machine, &mut told.sink, &mut told.pending) {
        Ok(()) => Ok(()),
        Err(SinkFault) => Err(AllocError),
    }
}

// Tells what the boot writes to the word, if it does.
fn tell_boot(machine: &Machine, address: u32, told: &mut Gathered) -> Result<(), AllocError> {
    match gather_boot_write(address, 0, machine, &mut told.sink, &mut told.pending) {
        Ok(()) => Ok(()),
        Err(SinkFault) => Err(AllocError),
    }
}

/// Tells the last step that wrote the word at an address, which is given by its digits.
pub fn tell_writer(
    alloc: Global,
    case: &Case,
    debuggee: &Debuggee,
    digits: &[u8],
    text: &mut Vec<u8>,
) -> Result<(), AllocError>
    requires lawful { IsLawful case.now.session }
    requires boots { Boots case.now.session }
{
    let Some(address) = word_address(digits) else {
        return push_no_address(text, digits);
    };
    let steps = debuggee.machine.steps();
    let told = last_write(alloc, case, address, steps)?;
    if told.is_empty() {
        return push_no_writer(text, steps, digits);
    }
    push_write(text, told.as_slice())?;
    match place_of_write(told.as_slice()) {
        Some(pc) => push_line_at(alloc, case, &debuggee.machine, pc, text),
        None => Ok(()),
    }
}

// The lines of the last of so many steps from the boot that writes the word, or of the boot: none where none does.
fn last_write(alloc: Global, case: &Case, address: u32, steps: u64) -> Result<Vec<u8>, AllocError>
    requires lawful { IsLawful case.now.session }
    requires boots { Boots case.now.session }
{
    let mut machine = machine_after(alloc, &case.session, 0)?;
    let mut told = Gathered::new(alloc);
    tell_boot(&machine, address, &mut told)?;
    let mut last = told.take(alloc)?;
    for turn in 0..steps {
        if machine.stop().is_some() || machine.steps() >= case.session.go {
            return Ok(last);
        }
        tell_step(&mut machine, address, &mut told)?;
        if !told.is_empty() {
            last = told.take(alloc)?;
        }
    }
    Ok(last)
}
