// How a run ended, by the first lines of its state in words.

use module_text::{after_word, split_line};
use run_pictures::texts::{leading_number, split_last};
use std::alloc::{AllocError, Global};
use tool_texts::Said::Bytes;
use tool_texts::push_sentence;

/// How a run ended.
#[derive(Drop)]
pub struct End {
    /// After which step.
    pub step: u64,
    /// At which tick; 0 where there is no clock.
    pub tick: u64,
    /// Why, in words.
    pub words: Vec<u8>,
    /// Whether only no more steps were taken.
    pub is_cut: bool,
}

/// How a run ended whose state is told by this text.
pub fn end_of(alloc: Global, state: &[u8]) -> Result<End, AllocError> {
    let (head, rest) = first_line(state);
    let (why, rest) = first_line(rest);
    let (next, _) = first_line(rest);
    let (step, tick) = moment_of(head);
    let mut end = End {
        step,
        tick,
        words: Vec::new(alloc),
        is_cut: true,
    };
    if why.starts_with(b"the steps of the session are used up") {
        push_sentence(&mut end.words, &[Bytes(b"its steps are used up")])?;
    } else if why.starts_with(b"the run is looked at") {
        push_sentence(&mut end.words, &[Bytes(b"no more is compared")])?;
    } else {
        let words = after_word(b"it ", why).unwrap_or(why);
        push_sentence(&mut end.words, &[Bytes(words)])?;
        end.is_cut = false;
    }
    if end.is_cut && !next.is_empty() && !next.starts_with(b"PC is ") {
        push_sentence(&mut end.words, &[Bytes(b"; "), Bytes(next)])?;
    }
    Ok(end)
}

// The first line of a text, and the text after it; nothing where there is none.
fn first_line(text: &[u8]) -> (&[u8], &[u8]) {
    split_line(text).unwrap_or((&[], &[]))
}

// The step and the tick of the first line.
fn moment_of(head: &[u8]) -> (u64, u64) {
    let Some((_, words)) = split_last(b": after step ", head) else {
        return (0, 0);
    };
    let Some((step, rest)) = leading_number(words) else {
        return (0, 0);
    };
    (step, tick_of(rest).unwrap_or(0))
}

// The tick that words begin with.
fn tick_of(words: &[u8]) -> Option<u64> {
    let (tick, _) = leading_number(after_word(b", tick ", words)?)?;
    Some(tick)
}
