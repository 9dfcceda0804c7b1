// Where two runs part, by their logs. What is compared is, for each task by itself, what it does, in its order; so what another task does in between
// is no difference. The instructions between two such lines are its way. The console and the keyboard have a row of their own, and so has the order of
// all.
#![tactic(auto)]

pub mod addresses;
pub mod alignment;
pub mod cells;
pub mod comparison;
pub mod deeds;
pub mod differences;
pub mod doers;
pub mod ends;
pub mod following;
pub mod keys;
pub mod listings;
pub mod log_lines;
pub mod requests;
pub mod runs;
pub mod sides;
pub mod tables;
pub mod told;
pub mod ways;

use comparison::{Compared, compare};
use module_text::TextEnd;
use requests::{Request, RunFiles, request_of};
use runs::Run;
use session_text::{Session, read_session};
use sides::Both;
use std::alloc::{AllocError, Global};
use tool_bundles::{BundleEnd, read_bundle};
use tool_texts::Said::{Bytes, Number};
use tool_texts::{Said, ToolText, push_sentence};

/// A text of so many bytes, or more, is not read: it gets no memory.
const TOO_LONG: usize = 1 << 30;

/// Where two runs part, in words, by what a bundle has of them: a line `same` or `differ`; a line for each run, with its letter
/// and the byte addresses that the words name; and the words. Where the logs end too early for that, it is a line `more` alone.
///
/// An input that is no such bundle is wrong, and so is a session that is refused: `* 2`, and a line that says why.
pub fn run_partings(alloc: Global, bundle: &[u8]) -> Result<ToolText, AllocError> {
    let entries = match read_bundle(alloc, bundle) {
        Ok(entries) => entries,
        Err(BundleEnd::NoBundle) => return no_request(alloc),
        Err(BundleEnd::WantMemory) => return Err(AllocError),
    };
    match request_of(entries.as_slice()) {
        Some(request) => partings_of(alloc, request),
        None => no_request(alloc),
    }
}

// What is told of a request.
fn partings_of(alloc: Global, request: Request) -> Result<ToolText, AllocError> {
    let a = match session_of(alloc, request.files.a)? {
        Ok(session) => session,
        Err(refused) => return Ok(refused),
    };
    let b = match session_of(alloc, request.files.b)? {
        Ok(session) => session,
        Err(refused) => return Ok(refused),
    };
    let runs = Both {
        a: request.files.a.run(&a),
        b: request.files.b.run(&b),
    };
    compared_text(alloc, request, runs)
}

// What is told of two runs.
fn compared_text(alloc: Global, request: Request, runs: Both<Run>) -> Result<ToolText, AllocError> {
    let mut bytes = Vec::new(alloc);
    match compare(alloc, request.form, runs)? {
        Compared::NeedsMore => push_sentence(&mut bytes, &[Bytes(b"more\n")])?,
        Compared::Told {
            are_other,
            addresses,
            text,
        } => {
            let head: &[u8] = if are_other { b"differ\n" } else { b"same\n" };
            push_sentence(
                &mut bytes,
                &[
                    Bytes(head),
                    Bytes(addresses.as_slice()),
                    Bytes(text.as_slice()),
                ],
            )?;
        }
    }
    Ok(ToolText {
        is_wrong: false,
        bytes,
    })
}

// The session of a run, or what is told where it is refused.
fn session_of(alloc: Global, files: RunFiles) -> Result<Result<Session, ToolText>, AllocError> {
    if files.session.len() >= TOO_LONG {
        return Err(AllocError);
    }
    match read_session(alloc, files.session) {
        Ok(session) => Ok(Ok(session)),
        Err(TextEnd::Bad { line, code }) => {
            let why = [
                Bytes(files.name),
                Bytes(b" is no session: line "),
                Number(u64::from(line)),
                Bytes(b" code "),
                Number(u64::from(code)),
            ];
            Ok(Err(wrong_text(alloc, &why)?))
        }
        Err(TextEnd::WantMemory) => Err(AllocError),
    }
}

// What is told where the input is no bundle of two runs.
fn no_request(alloc: Global) -> Result<ToolText, AllocError> {
    wrong_text(alloc, &[Bytes(b"the input is no bundle of two runs")])
}

// What is wrong.
fn wrong_text(alloc: Global, why: &[Said]) -> Result<ToolText, AllocError> {
    let mut bytes = Vec::new(alloc);
    push_sentence(&mut bytes, &[Bytes(b"* 2\ncompare: ")])?;
    push_sentence(&mut bytes, why)?;
    push_sentence(&mut bytes, &[Bytes(b"\n")])?;
    Ok(ToolText {
        is_wrong: true,
        bytes,
    })
}
