// Where a machine is, or why it has stopped.

use crate::typed_words::addresses::push_line_at;
use crate::typed_words::cases::Case;
use crate::typed_words::sentences::push_said;
use kernel_model::Stop;
use std::alloc::{AllocError, Global};
use tool_texts::Said::{Bytes, Number};
use tool_texts::push_sentence;
use tripos_machine::Machine;

/// Adds the line of assembly where a machine is, or why it has stopped. Where steps were to be taken, and there are none left, this is said.
pub fn push_stop(
    alloc: Global,
    case: &Case,
    machine: &Machine,
    is_stuck: bool,
    text: &mut Vec<u8>,
) -> Result<(), AllocError> {
    if let Some(stop) = machine.stop() {
        push_closing(text, machine.steps(), stop)?;
        return push_fault_line(alloc, case, machine, stop, text);
    }
    if is_stuck {
        push_stuck(case, text)?;
    }
    push_line_at(alloc, case, machine, u64::from(machine.regs().pc), text)
}

fn push_stuck(case: &Case, text: &mut Vec<u8>) -> Result<(), AllocError> {
    push_said(
        text,
        &[
            Bytes(b"no steps are left: the GO line of "),
            Bytes(case.path.bytes()),
            Bytes(b" has the most that there may be"),
        ],
    )
}

// Adds the line of assembly that a fault names, where it names a byte address.
fn push_fault_line(
    alloc: Global,
    case: &Case,
    machine: &Machine,
    stop: Stop,
    text: &mut Vec<u8>,
) -> Result<(), AllocError> {
    match stop {
        Stop::Fault {
            code: 1 | 2 | 5 | 7 | 8,
            address,
            ..
        } => push_line_at(alloc, case, machine, u64::from(address), text),
        _ => Ok(()),
    }
}

// Adds the line with which a run ends.
fn push_closing(text: &mut Vec<u8>, steps: u64, stop: Stop) -> Result<(), AllocError> {
    push_sentence(
        text,
        &[
            Bytes(b"* stopped after "),
            Number(steps),
            Bytes(b" steps: "),
        ],
    )?;
    push_why(text, stop)?;
    push_sentence(text, &[Bytes(b"\n")])
}

fn push_why(text: &mut Vec<u8>, stop: Stop) -> Result<(), AllocError> {
    match stop {
        Stop::Steps => push_sentence(text, &[Bytes(b"steps")]),
        Stop::Finish => push_sentence(text, &[Bytes(b"finish")]),
        Stop::Quit(code) => push_sentence(text, &[Bytes(b"quit "), Number(u64::from(code))]),
        Stop::Fault {
            code,
            address,
            task,
        } => push_sentence(
            text,
            &[
                Bytes(b"fault "),
                Number(u64::from(code)),
                Bytes(b" at "),
                Number(u64::from(address)),
                Bytes(b" in task "),
                Number(u64::from(task)),
            ],
        ),
    }
}
