// The functions that have called one another.

use crate::typed_words::addresses::push_place_at;
use crate::typed_words::cases::Case;
use crate::typed_words::debuggees::Debuggee;
use crate::typed_words::frames::{MOST_FRAMES, frames_from};
use crate::typed_words::sentences::push_said;
use run_names::{NamedHunk, hunks_of, modules_of, push_comma_place};
use std::alloc::{AllocError, Global};
use tool_texts::Said::{Bytes, Number};
use tool_texts::push_sentence;
use tripos_machine::Machine;

/// Shows the function that runs, and those that have called one another.
pub fn push_backtrace(
    alloc: Global,
    case: &Case,
    debuggee: &Debuggee,
    text: &mut Vec<u8>,
) -> Result<(), AllocError> {
    let machine = &debuggee.machine;
    let regs = machine.regs();
    let frames = frames_from(alloc, machine.store(), regs.p)?;
    let hunks = hunks_named(alloc, case, machine)?;
    let hunks = hunks.as_slice();
    push_located(alloc, case, machine, hunks, b"at ", regs.pc, text)?;
    for frame in frames.as_slice() {
        push_located(
            alloc,
            case,
            machine,
            hunks,
            b"in the function at ",
            frame.function,
            text,
        )?;
        push_sentence(
            text,
            &[
                Bytes(b"which goes back to "),
                Number(u64::from(frame.back)),
                Bytes(b"\n"),
            ],
        )?;
        push_place_at(alloc, case, machine, u64::from(frame.back), text)?;
    }
    if frames.len() < MOST_FRAMES {
        return Ok(());
    }
    push_said(text, &[Bytes(b"and more calls before these")])
}

// The hunks of the modules that are loaded. A bare machine has no modules.
fn hunks_named<'a>(
    alloc: Global,
    case: &'a Case,
    machine: &Machine,
) -> Result<Vec<NamedHunk<'a>>, AllocError> {
    if machine.kernel_parts().is_none() {
        return Ok(Vec::new(alloc));
    }
    let modules = modules_of(alloc, case.programs.as_slice(), machine.store())?;
    hunks_of(alloc, machine.store(), modules.as_slice())
}

// A byte address, and where it is, by the names that there are.
fn push_located(
    alloc: Global,
    case: &Case,
    machine: &Machine,
    hunks: &[NamedHunk],
    before: &[u8],
    address: u32,
    text: &mut Vec<u8>,
) -> Result<(), AllocError> {
    push_sentence(text, &[Bytes(before), Number(u64::from(address))])?;
    push_comma_place(text, machine.store(), hunks, address)?;
    push_sentence(text, &[Bytes(b"\n")])?;
    push_place_at(alloc, case, machine, u64::from(address), text)
}
