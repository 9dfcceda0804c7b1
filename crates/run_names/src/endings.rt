// How PC became 0.
use crate::hunks::NamedHunk;
use crate::places::push_comma_place;
use std::alloc::AllocError;
use tool_texts::Said::{Bytes, Number};
use tool_texts::push_sentence;
use word_store::Store;

/// How an instruction can lead PC to 0.
#[derive(Clone, Copy)]
enum Way<'a> {
    /// The function at which a task or a bare machine begins has returned.
    StartReturned,
    /// It calls a global with this number, which is 0.
    Global(&'a [u8]),
    /// It calls address 0.
    Call,
    /// It returns from the bottom of the stack.
    Return,
    /// Some other way.
    Other,
}

/// Adds how the last instruction of a task led PC to 0. It is given as the debugger lists it: its byte address, and its text. A bare machine
/// has no task that could have returned.
pub fn push_what_led_to_0(
    text: &mut Vec<u8>,
    is_bare: bool,
    address: u32,
    instruction: &[u8],
    store: &Store,
    hunks: &[NamedHunk],
) -> Result<(), AllocError> {
    match way_of(is_bare, instruction) {
        Way::StartReturned => push_sentence(text, &[Bytes(b"its start has returned")]),
        Way::Global(number) => {
            push_at(text, instruction, address, store, hunks)?;
            push_sentence(
                text,
                &[
                    Bytes(b" called global "),
                    Bytes(number),
                    Bytes(b", which is 0"),
                ],
            )
        }
        Way::Call => {
            push_at(text, instruction, address, store, hunks)?;
            push_sentence(text, &[Bytes(b" called address 0")])
        }
        Way::Return => {
            push_at(text, b"RTN", address, store, hunks)?;
            push_sentence(text, &[Bytes(b" returned from the bottom of the stack")])
        }
        Way::Other => {
            push_at(text, instruction, address, store, hunks)?;
            push_sentence(text, &[Bytes(b" led there")])
        }
    }
}

// An instruction and where it is.
fn push_at(
    text: &mut Vec<u8>,
    instruction: &[u8],
    address: u32,
    store: &Store,
    hunks: &[NamedHunk],
) -> Result<(), AllocError> {
    push_sentence(
        text,
        &[
            Bytes(instruction),
            Bytes(b" at "),
            Number(u64::from(address)),
        ],
    )?;
    if push_comma_place(text, store, hunks, address)? {
        return push_sentence(text, &[Bytes(b",")]);
    }
    Ok(())
}

// How an instruction leads there: its name, and what comes after that.
fn way_of(is_bare: bool, instruction: &[u8]) -> Way<'_> {
    let (name, operand) = first_word(instruction);
    if name == b"RTN".as_slice() && !is_bare {
        return Way::StartReturned;
    }
    match instruction {
        [b'K', rest @ ..] => {
            if calls_global(rest) {
                Way::Global(first_word(operand).0)
            } else {
                Way::Call
            }
        }
        [b'R', b'T', b'N', ..] => Way::Return,
        _ => Way::Other,
    }
}

// Whether what comes after the K of a call is digits and a G.
fn calls_global(rest: &[u8]) -> bool {
    let digits = rest.iter().take_while(|c| c.is_ascii_digit()).count();
    digits > 0 && rest.get(digits) == Some(&b'G')
}

// The first word of a text, up to a blank, and what comes after the blank.
fn first_word(text: &[u8]) -> (&[u8], &[u8]) {
    match text.iter().position(|c| *c == b' ') {
        Some(end) => (&text[..end], &text[end + 1..]),
        None => (text, &[]),
    }
}
