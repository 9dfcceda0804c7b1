// What is asked of the log.
use crate::no_machines::step_named;
use module_text::{after_word, number};
use tool_bundles::Entry;

/// What is asked for.
#[derive(Clone, Copy)]
pub struct Request<'a> {
    /// The session, as it is called in the log.
    pub name: &'a [u8],
    /// The text of the session.
    pub session: &'a [u8],
    /// The task that lines have to be about, if they have to be.
    pub task: Option<u32>,
    /// The words of the kinds that are wanted, or `-`.
    pub kinds: &'a [u8],
    /// The first step that is told, from 1; 0 stands for 1.
    pub first: u64,
    /// The last, if one is named.
    pub last: Option<u64>,
}

/// What the words of a bundle ask for; `None` where they are no request.
pub fn request_of<'a>(entries: &[Entry<'a>]) -> Option<Request<'a>> {
    let [session, task, kinds, first, last] = entries else {
        return None;
    };
    Some(Request {
        name: session.word.bytes(),
        session: session.file()?.bytes(),
        task: task_of(task.word.bytes())?,
        kinds: kinds.word.bytes(),
        first: number(first.word.bytes())?,
        last: step_named(last.word.bytes())?,
    })
}

// The task that a word names: none where it is `-`; `None` where it is neither.
fn task_of(word: &[u8]) -> Option<Option<u32>> {
    if word == b"-".as_slice() {
        return Some(None);
    }
    let id = number(after_word(b"task ", word)?)?;
    Some(Some(u32::try_from(id).unwrap_or(u32::MAX)))
}
