// How a step writes a word, in words.

use crate::typed_words::fields::next_field;
use module_text::{number, split_line};
use std::alloc::AllocError;
use tool_texts::Said::{Bytes, Number};
use tool_texts::push_sentence;

/// A line of a step that writes a word: its moment, and what follows.
#[derive(Clone, Copy)]
pub struct Told<'a> {
    /// The number of the step, 0 for the boot.
    pub step: u64,
    /// The tick.
    pub tick: u64,
    /// The number of the task.
    pub task: u64,
    /// The byte address of the instruction.
    pub pc: u64,
    /// What is told: `step`, `call` or `write`.
    pub what: &'a [u8],
    /// The words after that.
    pub rest: &'a [u8],
}

// What a line tells; `None` where it has not this form.
fn told_of(line: &[u8]) -> Option<Told<'_>> {
    let (step, rest) = next_number(line)?;
    let (tick, rest) = next_number(rest)?;
    let (task, rest) = next_number(rest)?;
    let (pc, rest) = next_number(rest)?;
    let (what, rest) = next_field(rest)?;
    Some(Told {
        step,
        tick,
        task,
        pc,
        what,
        rest: without_blank(rest),
    })
}

fn next_number(text: &[u8]) -> Option<(u64, &[u8])> {
    let (digits, rest) = next_field(text)?;
    Some((number(digits)?, rest))
}

// A text without the blank before it.
fn without_blank(text: &[u8]) -> &[u8] {
    match text {
        [b' ', rest @ ..] => rest,
        _ => text,
    }
}

/// Says how a step writes a word, of the lines that tell it: that of the instruction or of the call comes before that of the word.
pub fn push_write(text: &mut Vec<u8>, lines: &[u8]) -> Result<(), AllocError> {
    let mut done: &[u8] = b"";
    let mut last = None;
    let mut rest = lines;
    while let Some((line, others)) = split_line(rest) {
        if let Some(told) = told_of(line) {
            if told.what == b"write".as_slice() {
                last = Some(told);
            } else {
                done = done_by(told);
            }
        }
        rest = others;
    }
    match last {
        Some(told) => push_told(text, told, done),
        None => Ok(()),
    }
}

// What a line says that is done: the instruction without its address, or the call.
fn done_by<'a>(told: Told<'a>) -> &'a [u8] {
    if told.what != b"step".as_slice() {
        return told.rest;
    }
    match next_field(told.rest) {
        Some((_, instruction)) => without_blank(instruction),
        None => told.rest,
    }
}

fn push_told(text: &mut Vec<u8>, told: Told, done: &[u8]) -> Result<(), AllocError> {
    push_moment(text, told, done)?;
    push_change(text, told.rest)
}

// When and by whom a word is written.
fn push_moment(text: &mut Vec<u8>, told: Told, done: &[u8]) -> Result<(), AllocError> {
    if told.step == 0 {
        return push_sentence(text, &[Bytes(b"the boot")]);
    }
    push_sentence(
        text,
        &[
            Bytes(b"step "),
            Number(told.step),
            Bytes(b", tick "),
            Number(told.tick),
        ],
    )?;
    if told.task != 0 {
        push_sentence(text, &[Bytes(b", task "), Number(told.task)])?;
    } else if done.is_empty() {
        push_sentence(text, &[Bytes(b", nobody runs")])?;
    }
    if is_guests(told.task, done) {
        push_sentence(text, &[Bytes(b", at "), Number(told.pc)])?;
    }
    if done.is_empty() {
        return Ok(());
    }
    push_sentence(text, &[Bytes(b", "), Bytes(done)])
}

// Whether a guest has done something. A bare machine has no tasks.
fn is_guests(task: u64, done: &[u8]) -> bool {
    match task {
        0 => !done.is_empty(),
        1..=4 => false,
        _ => true,
    }
}

// The word, and what it was and is.
fn push_change(text: &mut Vec<u8>, change: &[u8]) -> Result<(), AllocError> {
    let Some((address, rest)) = next_field(change) else {
        return Ok(());
    };
    let Some((old, rest)) = next_field(rest) else {
        return Ok(());
    };
    let Some((_, rest)) = next_field(rest) else {
        return Ok(());
    };
    let Some((new, _)) = next_field(rest) else {
        return Ok(());
    };
    push_sentence(
        text,
        &[
            Bytes(b": word "),
            Bytes(address),
            Bytes(b" from "),
            Bytes(old),
            Bytes(b" to "),
            Bytes(new),
            Bytes(b"\n"),
        ],
    )
}

/// The byte address of the instruction that has written the word, of the same lines, if one has.
pub fn place_of_write(lines: &[u8]) -> Option<u64> {
    let mut place = None;
    let mut rest = lines;
    while let Some((line, others)) = split_line(rest) {
        if let Some(told) = told_of(line) {
            if told.what != b"write".as_slice() {
                place = Some(told.pc);
            }
        }
        rest = others;
    }
    place
}
