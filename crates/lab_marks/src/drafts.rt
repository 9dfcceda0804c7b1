// What is read of the marks so far.

use crate::ends::Hindered;
use crate::known::Known;
use crate::plans::{PlanFile, push_piece};
use crate::wrongs::Wrong;
use std::alloc::{AllocError, Global};
use tool_texts::Said::{Bytes, Number};
use tool_texts::{Said, push_sentence};

/// The session of a mark.
#[derive(Drop)]
pub struct KeptSession {
    /// Its words, a line each.
    pub words: Vec<u8>,
    /// The first mark that has it.
    pub mark: u64,
}

/// What is read of the marks so far.
#[derive(Drop)]
pub struct Draft<'a> {
    /// The values of the names.
    pub known: Known<'a>,
    /// The titles, a line each.
    pub title: Vec<u8>,
    /// What is told of the values, a text for each.
    pub told: Vec<Vec<u8>>,
    /// What is told of the marks, a text for each.
    pub marked: Vec<Vec<u8>>,
    /// The plan, but for the end of the head.
    pub plan: Vec<u8>,
    /// How many marks there are.
    pub count: u64,
    /// The points of all of them.
    pub total: u64,
    /// The number of the last expectation.
    pub made: u64,
    /// Whether the last mark has an expectation.
    pub has_checks: bool,
    /// Whether lines of a text may come next: an expectation of the last mark is before them.
    pub takes_lines: bool,
    /// The words of the session of the last mark, a line each.
    pub session: Vec<u8>,
    /// The sessions of the marks before it.
    pub sessions: Vec<KeptSession>,
}

impl<'a> Draft<'a> {
    /// Nothing is read yet.
    pub fn new(alloc: Global, known: Known<'a>) -> Draft<'a> {
        Draft {
            known,
            title: Vec::new(alloc),
            told: Vec::new(alloc),
            marked: Vec::new(alloc),
            plan: Vec::new(alloc),
            count: 0,
            total: 0,
            made: 0,
            has_checks: false,
            takes_lines: false,
            session: Vec::new(alloc),
            sessions: Vec::new(alloc),
        }
    }
}

/// Adds these bytes to a file of the plan.
pub fn push_said(
    alloc: Global,
    draft: &mut Draft<'_>,
    file: PlanFile,
    parts: &[Said],
) -> Result<(), AllocError> {
    let mut text = Vec::new(alloc);
    push_sentence(&mut text, parts)?;
    push_piece(&mut draft.plan, file, &text)
}

/// The last mark ends here, if there is one: its session is written, or the number of the first mark that has the same.
pub fn end_mark<'a>(alloc: Global, draft: &mut Draft<'a>) -> Result<(), Hindered<'a>> {
    draft.takes_lines = false;
    if draft.count == 0 {
        return Ok(());
    }
    if !draft.has_checks {
        return Err(Hindered::Refused(Wrong::NoExpectations));
    }
    draft.has_checks = false;
    end_session(alloc, draft)?;
    Ok(())
}

// Writes the session of the last mark.
fn end_session(alloc: Global, draft: &mut Draft<'_>) -> Result<(), AllocError> {
    let file = PlanFile::Session(draft.count);
    match first_mark(&draft.sessions, &draft.session) {
        Some(mark) => push_said(
            alloc,
            draft,
            file,
            &[Bytes(b"= "), Number(mark), Bytes(b"\n")],
        ),
        None => {
            push_piece(&mut draft.plan, file, &draft.session)?;
            let mut words = Vec::new(alloc);
            words.extend_from_slice(&draft.session)?;
            draft.sessions.push(KeptSession {
                words,
                mark: draft.count,
            })?;
            Ok(())
        }
    }
}

// The first mark with this session.
fn first_mark(sessions: &[KeptSession], words: &[u8]) -> Option<u64> {
    for session in sessions {
        if session.words.as_slice() == words {
            return Some(session.mark);
        }
    }
    None
}
