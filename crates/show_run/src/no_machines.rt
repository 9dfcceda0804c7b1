// The session and the machine that a bundle asks about, and what is told where it has none.
ghost use Rattle.std.specs.Prelude.{◌≡◌, ◌≤◌, IfOk};
ghost use Rattle.session_text.specs.Canonical.{IsLawful};
ghost use Rattle.kernel_model.specs.KernelRecord.Ranges.{most_steps};
ghost use Rattle.tripos_machine.specs.State.{steps_of};
ghost use Rattle.show_run.specs.TypedWords.Runs.{Boots};

use module_text::{TextEnd, number};
use session_text::{BootEnd, Session, read_session};
use std::alloc::{AllocError, Global};
use tool_bundles::{BundleEnd, Entry, read_bundle};
use tool_texts::Said::{Bytes, Number};
use tool_texts::{Said, ToolText, push_sentence};
use tripos_machine::{Machine, boot};

/// A text of so many bytes, or more, is not read: it gets no memory.
pub(crate) const TOO_LONG: usize = 1 << 30;

/// Why nothing is told of a run.
#[derive(Clone, Copy)]
pub enum RunEnd {
    /// The input is no bundle, or its words are no request.
    NoRequest,
    /// The text is that of no session.
    NotRead {
        /// The first line in error, from 1.
        line: u32,
        /// Its code.
        code: u32,
    },
    /// What a line puts into the machine is refused.
    NoBoot {
        /// The line, from 1.
        line: u32,
        /// Its code.
        code: u32,
    },
    /// The last step that is asked for comes before the first.
    Backwards,
    /// The run may have no such step.
    TooLate {
        /// The first step that is asked for.
        first: u64,
        /// The last that there may be.
        last: u64,
    },
    /// The run stops before.
    Stopped {
        /// The first step that is asked for.
        first: u64,
        /// The step after which it stops.
        last: u64,
    },
    /// Memory could not be had.
    WantMemory,
}

impl From<AllocError> for RunEnd {
    ghost use Rattle.std.specs.Prelude.{◌≡◌};
    ghost use Rattle.show_run.specs.declared.no_machines.RunEnd.TheVariants.{WantMemory};

    ghost from_gives = { λ _ e. e ≡ WantMemory };

    fn from(_: AllocError) -> RunEnd {
        RunEnd::WantMemory
    }
}

/// The words of a bundle.
pub(crate) fn entries_of(alloc: Global, bundle: &[u8]) -> Result<Vec<Entry<'_>>, RunEnd> {
    match read_bundle(alloc, bundle) {
        Ok(entries) => Ok(entries),
        Err(BundleEnd::NoBundle) => Err(RunEnd::NoRequest),
        Err(BundleEnd::WantMemory) => Err(RunEnd::WantMemory),
    }
}

/// The session of a text.
pub(crate) fn session_of(alloc: Global, text: &[u8]) -> Result<Session, RunEnd>
    ensures { IfOk result IsLawful }
{
    if text.len() >= TOO_LONG {
        return Err(RunEnd::WantMemory);
    }
    match read_session(alloc, text) {
        Ok(session) => Ok(session),
        Err(TextEnd::Bad { line, code }) => Err(RunEnd::NotRead { line, code }),
        Err(TextEnd::WantMemory) => Err(RunEnd::WantMemory),
    }
}

/// The machine of a session, before its first step.
pub(crate) fn machine_of(alloc: Global, session: &Session) -> Result<Machine, RunEnd>
    requires { IsLawful session.now }
    ensures steps { IfOk result (λ m. steps_of m.state ≡ 0) }
    ensures boots { IfOk result (λ _. Boots session.now) }
    ensures most { session.now.go ≤ most_steps }
{
    match boot(alloc, session) {
        Ok(machine) => Ok(machine),
        Err(BootEnd::Line { line, code }) => Err(RunEnd::NoBoot { line, code }),
        Err(BootEnd::WantMemory) => Err(RunEnd::WantMemory),
    }
}

/// The step that a word names: none where it is `-`; `None` where it is neither.
pub(crate) fn step_named(word: &[u8]) -> Option<Option<u64>> {
    if word == b"-".as_slice() {
        return Some(None);
    }
    Some(Some(number(word)?))
}

/// What the tool of a script gives where nothing is told. `AllocError` comes where memory could not be had, before or now.
pub(crate) fn told_end(alloc: Global, script: &[u8], end: RunEnd) -> Result<ToolText, AllocError> {
    match end {
        RunEnd::NotRead { line, code } => refused(alloc, line, code),
        RunEnd::NoBoot { line, code } => no_boot(alloc, line, code),
        RunEnd::NoRequest => wrong_words(
            alloc,
            script,
            &[Bytes(b"the input is no bundle of what is asked for")],
        ),
        RunEnd::Backwards => wrong_words(
            alloc,
            script,
            &[Bytes(b"the last step is before the first")],
        ),
        RunEnd::TooLate { first, last } => no_step(alloc, script, first, b": it has ", last),
        RunEnd::Stopped { first, last } => {
            no_step(alloc, script, first, b": it stopped after ", last)
        }
        RunEnd::WantMemory => Err(AllocError),
    }
}

// A step that the run does not have.
fn no_step(
    alloc: Global,
    script: &[u8],
    first: u64,
    why: &[u8],
    last: u64,
) -> Result<ToolText, AllocError> {
    wrong_words(
        alloc,
        script,
        &[
            Bytes(b"the run has no step "),
            Number(first),
            Bytes(why),
            Number(last),
        ],
    )
}

/// The status of words that ask for nothing, and why they do not.
pub(crate) fn wrong_words(
    alloc: Global,
    script: &[u8],
    why: &[Said],
) -> Result<ToolText, AllocError> {
    wrong_part(alloc, b"", script, why)
}

/// The same where it is a part of the words that is wrong: its name is given with a blank before it.
pub(crate) fn wrong_part<'a>(
    alloc: Global,
    part: &'a [u8],
    script: &'a [u8],
    why: &[Said],
) -> Result<ToolText, AllocError> {
    let mut bytes = Vec::new(alloc);
    push_sentence(&mut bytes, &[Bytes(b"* 2"), Bytes(part), Bytes(b"\n")])?;
    push_sentence(&mut bytes, &[Bytes(script), Bytes(b": ")])?;
    push_sentence(&mut bytes, why)?;
    push_sentence(&mut bytes, &[Bytes(b"\n")])?;
    Ok(ToolText {
        is_wrong: true,
        bytes,
    })
}

/// What is told where the text of a session, or a line of the debugger after it, is refused: the status, and the line with which a run ends then.
pub(crate) fn refused(alloc: Global, line: u32, code: u32) -> Result<ToolText, AllocError> {
    closing(alloc, b"refused", line, code)
}

/// The same where a session does not boot, by what this line puts into the machine.
pub(crate) fn no_boot(alloc: Global, line: u32, code: u32) -> Result<ToolText, AllocError> {
    closing(alloc, b"no boot", line, code)
}

fn closing(alloc: Global, end: &[u8], line: u32, code: u32) -> Result<ToolText, AllocError> {
    let mut bytes = Vec::new(alloc);
    push_sentence(
        &mut bytes,
        &[
            Bytes(b"* 3\n* "),
            Bytes(end),
            Bytes(b": line "),
            Number(u64::from(line)),
            Bytes(b" code "),
            Number(u64::from(code)),
            Bytes(b"\n"),
        ],
    )?;
    Ok(ToolText {
        is_wrong: true,
        bytes,
    })
}
