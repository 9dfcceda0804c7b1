// What a log says of calls.

use crate::parties::Party;
use crate::texts::{leading_number, split_once};
use module_text::after_word;

/// Whether a call is drawn only by what comes of it: by its packet, or by the byte that it writes.
pub fn is_drawn_by_others(words: &[u8]) -> bool {
    words.starts_with(b"taskwait(") || words.starts_with(b"qpkt(") || words.starts_with(b"wrch(")
}

/// Whether a task begins to wait.
pub fn begins_to_wait(words: &[u8]) -> bool {
    words.starts_with(b"taskwait() waits")
}

/// The words of a call in two parts, between which its answer is left out where that says only that it was done.
pub fn without_done(words: &[u8]) -> (&[u8], &[u8]) {
    if let Some(call) = words.strip_suffix(b" = -1") {
        return (call, &[]);
    }
    match split_once(b" = -1, in ", words) {
        Some((call, place)) => (call, place),
        None => (words, &[]),
    }
}

/// What a call makes of another task.
#[derive(Clone, Copy)]
pub enum Asked {
    /// It is held.
    Hold(Party),
    /// It is no longer held.
    Release(Party),
    /// It is not there any more.
    Delete(Party),
    /// It gets this priority.
    Priority(Party, u64),
}

/// What a call makes of another task, if it is one of those that do.
pub fn asked_of(words: &[u8]) -> Option<Asked> {
    if let Some(rest) = after_word(b"hold(", words) {
        return Some(Asked::Hold(leading_task(rest)?.0));
    }
    if let Some(rest) = after_word(b"release(", words) {
        return Some(Asked::Release(leading_task(rest)?.0));
    }
    if let Some(rest) = after_word(b"deletetask(", words) {
        return Some(Asked::Delete(leading_task(rest)?.0));
    }
    let (party, rest) = leading_task(after_word(b"changepri(", words)?)?;
    let (priority, _) = leading_number(after_word(b", ", rest)?)?;
    Some(Asked::Priority(party, priority))
}

// The task whose number words begin with, and what comes after it.
fn leading_task(words: &[u8]) -> Option<(Party, &[u8])> {
    let (number, rest) = leading_number(words)?;
    Some((Party::Task(number), rest))
}
