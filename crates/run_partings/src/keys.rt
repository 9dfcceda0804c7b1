// What a line says that its run does, without what is only shifted.

use crate::log_lines::Line;
use module_text::{after_word, number};
use run_pictures::texts::{leading_number, split_last, split_once};
use std::alloc::{AllocError, Global};
use tool_texts::Said::{Bytes, Number};
use tool_texts::push_sentence;

/// Adds words without the places of code in them: the place may only be shifted, and the instructions tell where tasks part.
pub fn push_words(text: &mut Vec<u8>, words: &[u8]) -> Result<(), AllocError> {
    let mut rest = words;
    for _ in 0..words.len() {
        let Some((before, after)) = split_once(b", in ", rest) else {
            break;
        };
        push_sentence(text, &[Bytes(before)])?;
        match after_place(after) {
            Some(others) => rest = others,
            None => {
                push_sentence(text, &[Bytes(b", in ")])?;
                rest = after;
            }
        }
    }
    push_sentence(text, &[Bytes(rest)])
}

// What comes after a place of code, `FILE at offset N` or `the function F of FILE at offset N`; `None` where there is none.
fn after_place(words: &[u8]) -> Option<&[u8]> {
    let (place, offset) = split_once(b" at offset ", words)?;
    if !is_place(place) {
        return None;
    }
    let (_, rest) = leading_number(offset)?;
    Some(rest)
}

// Whether it is a file, or a function of a file.
fn is_place(words: &[u8]) -> bool {
    let Some(rest) = after_word(b"the function ", words) else {
        return is_word(words);
    };
    match split_last(b" of ", rest) {
        Some((function, file)) => {
            !function.is_empty() && !function.contains(&b',') && is_word(file)
        }
        None => false,
    }
}

// Whether it is one word.
fn is_word(text: &[u8]) -> bool {
    !text.is_empty() && !text.contains(&b' ') && !text.contains(&b',')
}

/// Adds what a line says that its run does, where the clock has this period, or none where it is 0: its kind and words, and its task where that is no
/// accident. A packet at the clock is due after so many ticks, and whether a task waits for a packet or has it already says nothing.
pub fn push_key(
    alloc: Global,
    text: &mut Vec<u8>,
    line: &Line,
    period: u64,
) -> Result<(), AllocError> {
    push_sentence(text, &[Bytes(line.kind), Bytes(b" ")])?;
    push_unshifted(alloc, text, line, period)?;
    if line.is_of_task() && line.has_task() {
        push_sentence(text, &[Bytes(b" by task "), Bytes(line.task)])?;
    }
    Ok(())
}

/// Adds the words of a line without what is only shifted, where the clock has this period.
pub fn push_unshifted(
    alloc: Global,
    text: &mut Vec<u8>,
    line: &Line,
    period: u64,
) -> Result<(), AllocError> {
    if line.kind == b"call".as_slice() && line.words.starts_with(b"taskwait() ") {
        return push_sentence(text, &[Bytes(b"taskwait()")]);
    }
    let mut words = Vec::new(alloc);
    push_words(&mut words, line.words)?;
    match when_due(words.as_slice()) {
        Some((before, due)) => {
            push_sentence(text, &[Bytes(before)])?;
            push_due(text, line, due, period)
        }
        None => push_sentence(text, &[Bytes(words.as_slice())]),
    }
}

/// The words before the tick at which a packet is due, and the tick; `None` where the words do not end with that.
pub fn when_due(words: &[u8]) -> Option<(&[u8], u64)> {
    let (before, tick) = split_last(b", due at tick ", words)?;
    Some((before, number(tick)?))
}

// Adds after how many ticks a packet is due. Where it comes back in the step in which it was sent, that is at the next tick.
fn push_due(text: &mut Vec<u8>, line: &Line, due: u64, period: u64) -> Result<(), AllocError> {
    let is_tick = line.step.checked_rem(period) == Some(0);
    let ticks = due
        .saturating_add(u64::from(is_tick))
        .saturating_sub(line.tick);
    if ticks <= 1 {
        return push_sentence(text, &[Bytes(b", due at the next tick")]);
    }
    push_sentence(
        text,
        &[Bytes(b", due in "), Number(ticks), Bytes(b" ticks")],
    )
}

/// Adds what an instruction is: the way on which the task came to it, its address and its words.
pub fn push_step_key(text: &mut Vec<u8>, line: &Line, is_jump: bool) -> Result<(), AllocError> {
    let came: &[u8] = if is_jump { b" jumped " } else { b" came " };
    push_sentence(text, &[Bytes(b"step "), Bytes(line.pc), Bytes(came)])?;
    push_words(text, line.words)
}
