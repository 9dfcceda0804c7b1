// The session that is made, and its text.
ghost use Rattle.std.specs.Prelude.{◌≡◌, ◌∷◌, [], ◌++◌, ◌-◌, drop, length, map, take, IfOk, OnOk};
ghost use Rattle.std.specs.List.{flat_map};
ghost use Rattle.session_text.specs.Canonical.{canonical};
ghost use Rattle.session_making.specs.Sessions.{bare_session, code_line, file_line, go_text, kernel_session, lines_made, rows_of, session_text, task_line, typed_line};

use crate::makings::{MadeTask, Typed};
use crate::programs::MadeFile;
use crate::requests::{Kind, Request};
use crate::words::hex_digits;
use session_text::{Bytes, Keys, LineForm, Lines, Session, SessionLine, print_session};
use std::alloc::{AllocError, Global};
use text_sinks::TextSink;
use tool_texts::Said::{Bytes as Said, Number};
use tool_texts::push_sentence;

/// How many bytes of code a line has.
const ROW: usize = 32;

/// The text of a session whose keys are what is typed: first its lines, then what is typed, and then its steps.
pub fn session_text(
    alloc: Global,
    session: &Session,
    typed: &[Typed],
) -> Result<Vec<u8>, AllocError>
    requires { session.now.keys ≡ [] }
    ensures { IfOk result (λ v. v.items ≡ session_text session.now typed.now) }
{
    let printed = printed_session(alloc, session)?;
    let go = go_line(alloc, session.go)?;
    let mut text = front_of(alloc, printed.as_slice(), go.as_slice())?;
    push_all_typed(&mut text, typed)?;
    text.extend_from_slice(go.as_slice())?;
    Ok(text)
}

// The printed text of a session.
fn printed_session(alloc: Global, session: &Session) -> Result<Vec<u8>, AllocError>
    ensures { IfOk result (λ v. v.items ≡ canonical session.now) }
{
    let mut text = TextSink::new(alloc);
    match print_session(session, &mut text) {
        Ok(()) => Ok(text.bytes),
        Err(_) => Err(AllocError),
    }
}

// The last line of a session.
#[tactic(auto, unfolding(crate::specs::Sessions::go_text))]
fn go_line(alloc: Global, steps: u64) -> Result<Vec<u8>, AllocError>
    ensures { IfOk result (λ v. v.items ≡ go_text steps) }
{
    let mut text = Vec::new(alloc);
    push_sentence(&mut text, &[Said(b"GO "), Number(steps), Said(b"\n")])?;
    Ok(text)
}

// A text without as many bytes at its end as this end has.
fn front_of(alloc: Global, text: &[u8], end: &[u8]) -> Result<Vec<u8>, AllocError>
    ensures { IfOk result (λ v. v.items ≡ take (length text.now - length end.now) text.now) }
{
    let (front, _) = text.split_at(text.len().saturating_sub(end.len()));
    Vec::from_slice(alloc, front)
}

// Adds a line for each thing that is typed.
fn push_all_typed(text: &mut Vec<u8>, typed: &[Typed]) -> Result<(), AllocError>
    ensures { OnOk result (text.new.items ≡ text.old.items ++ flat_map typed_line typed.now) }
{
    for one in typed {
        push_typed(text, one)?;
    }
    Ok(())
}

fn push_typed(text: &mut Vec<u8>, typed: &Typed) -> Result<(), AllocError>
    ensures { OnOk result (text.new.items ≡ text.old.items ++ typed_line typed.now) }
{
    match typed {
        Typed::Text { step, text: typed } => push_sentence(
            text,
            &[
                Said(b"AT "),
                Number(*step),
                Said(b" :"),
                Said(typed.bytes()),
                Said(b"\n"),
            ],
        ),
        Typed::Key { step, byte } => push_sentence(
            text,
            &[
                Said(b"KEY "),
                Number(*step),
                Said(b" "),
                Said(&hex_digits(*byte)),
                Said(b"\n"),
            ],
        ),
    }
}

/// The session of a bare machine with this code.
pub fn bare_session(alloc: Global, request: &Request, code: &[u8]) -> Result<Session, AllocError>
    ensures { IfOk result (λ s. s ≡ bare_session request.now code.now) }
{
    Ok(Session {
        version: request.version,
        store: request.store,
        period: request.period,
        bare: true,
        resident: false,
        debug: false,
        lines: code_lines(alloc, code)?,
        keys: Keys::new(Vec::new(alloc)),
        go: request.steps,
    })
}

// Lines of code, each with so many bytes at most.
fn code_lines(alloc: Global, code: &[u8]) -> Result<Lines, AllocError>
    ensures { IfOk result (λ l. l ≡ map code_line (rows_of code.now)) }
{
    let mut lines = Vec::new(alloc);
    let mut rest = code;
    for done in 0..code.len() {
        if rest.is_empty() {
            return Ok(Lines::new(lines));
        }
        push_row(alloc, &mut lines, first_row(rest))?;
        rest = code_from(rest, ROW);
    }
    Ok(Lines::new(lines))
}

// The first row of code.
#[tactic(auto, using(std::proofs::lemmas::List::take_min))]
fn first_row(code: &[u8]) -> &[u8]
    ensures { result.now ≡ take 32 code.now }
{
    code.split_at(ROW.min(code.len())).0
}

// The code from this byte on.
#[tactic(auto, using(std::proofs::lemmas::List::drop_all))]
fn code_from(code: &[u8], first: usize) -> &[u8]
    ensures { result.now ≡ drop first code.now }
{
    if code.len() <= first {
        return &[];
    }
    code.split_at(first).1
}

// Adds a row of code.
fn push_row(alloc: Global, lines: &mut Vec<SessionLine>, row: &[u8]) -> Result<(), AllocError>
    ensures { OnOk result (lines.new.items ≡ lines.old.items ++ code_line row.now ∷ []) }
{
    let bytes = Vec::from_slice(alloc, row)?;
    lines.push(SessionLine {
        line: 0,
        form: LineForm::Code(Bytes::new(bytes)),
    })?;
    Ok(())
}

/// The session of a machine with a kernel, with what is made of its items but for what is typed.
pub fn kernel_session(
    alloc: Global,
    request: &Request,
    files: Vec<MadeFile>,
    tasks: Vec<MadeTask>,
) -> Result<Session, AllocError>
    ensures { IfOk result (λ s. s ≡ kernel_session request.now files.items tasks.items) }
{
    let is_shell = matches!(request.kind, Kind::Shell);
    Ok(Session {
        version: request.version,
        store: request.store,
        period: request.period,
        bare: false,
        resident: is_shell,
        debug: is_shell && request.reporter,
        lines: lines_made(alloc, files, tasks)?,
        keys: Keys::new(Vec::new(alloc)),
        go: request.steps,
    })
}

// The lines of files, and then those of tasks.
fn lines_made(
    alloc: Global,
    files: Vec<MadeFile>,
    tasks: Vec<MadeTask>,
) -> Result<Lines, AllocError>
    ensures { IfOk result (λ l. l ≡ lines_made files.items tasks.items) }
{
    let mut lines = Vec::new(alloc);
    push_files(&mut lines, files)?;
    push_tasks(&mut lines, tasks)?;
    Ok(Lines::new(lines))
}

// Adds the lines of files.
fn push_files(lines: &mut Vec<SessionLine>, files: Vec<MadeFile>) -> Result<(), AllocError>
    ensures { OnOk result (lines.new.items ≡ lines.old.items ++ map file_line files.items) }
{
    for file in files {
        let MadeFile { name, bytes, .. } = file;
        let form = LineForm::File { name, bytes };
        lines.push(SessionLine { line: 0, form })?;
    }
    Ok(())
}

// Adds the lines of tasks.
fn push_tasks(lines: &mut Vec<SessionLine>, tasks: Vec<MadeTask>) -> Result<(), AllocError>
    ensures { OnOk result (lines.new.items ≡ lines.old.items ++ map task_line tasks.items) }
{
    for task in tasks {
        let MadeTask {
            id,
            priority,
            stack,
            names,
            ..
        } = task;
        let form = LineForm::Task {
            id,
            pri: priority,
            stack,
            names,
        };
        lines.push(SessionLine { line: 0, form })?;
    }
    Ok(())
}
