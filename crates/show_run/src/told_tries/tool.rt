// The tries that a bundle asks for, told.
ghost use Rattle.std.specs.Prelude.{◌≡◌, IfOk};
ghost use Rattle.session_text.specs.Canonical.{IsLawful};
ghost use Rattle.tool_texts.specs.Told.{told_of};
ghost use Rattle.show_run.specs.ToldTries.{AreTold};
ghost use Rattle.show_run.specs.ValueTries.TriesAnswers.{tries_in};
ghost use Rattle.show_run.specs.ValueTries.TryWords.{asked};

use crate::no_machines::{RunEnd, entries_of, session_of, told_end};
use crate::told_tries::requests::{Request, request_of};
use crate::told_tries::tables::{push_firsts, table_text};
use crate::told_tries::values::values_in;
use crate::told_tries::wrongs::{SCRIPT, not_there, wrong_values};
use crate::value_tries::runs::try_all;
use crate::value_tries::settings::is_there;
use crate::value_tries::spans::Span;
use session_text::Session;
use std::alloc::{AllocError, Global};
use tool_texts::Said::Bytes;
use tool_texts::{ToolText, push_sentence};

/// What the runs of a session come to with each of many values of one number: a line for each outcome with its first value, an empty line, and
/// a table; or why nothing is told of them.
pub(crate) fn outcomes_text(alloc: Global, bundle: &[u8]) -> Result<ToolText, AllocError> {
    match told_text(alloc, bundle) {
        Ok(told) => Ok(told),
        Err(end) => told_end(alloc, SCRIPT, end),
    }
}

// What a bundle asks for, if it asks for tries of a session.
fn told_text(alloc: Global, bundle: &[u8]) -> Result<ToolText, RunEnd> {
    let entries = entries_of(alloc, bundle)?;
    let request = request_of(entries.as_slice()).ok_or(RunEnd::NoRequest)?;
    match values_in(alloc, request.values)? {
        Ok(values) => session_text(alloc, request, values.as_slice()),
        Err(wrong) => Ok(wrong_values(alloc, request.values, wrong)?),
    }
}

// The tries of these values, where the session has what is set anew.
fn session_text(alloc: Global, request: Request, values: &[Span]) -> Result<ToolText, RunEnd> {
    let mut session = session_of(alloc, request.session)?;
    if !is_there(request.setting, &session) {
        return Ok(not_there(alloc, request.setting, request.name, &session)?);
    }
    Ok(tries_text(alloc, request, values, &mut session)?)
}

// What the tries of all values come to.
fn tries_text(
    alloc: Global,
    request: Request,
    values: &[Span],
    session: &mut Session,
) -> Result<ToolText, AllocError>
    requires { IsLawful session.old }
    ensures { IfOk result (λ t.
        AreTold (tries_in (asked request.entry.setting values.now) session.old) (told_of t)) }
{
    let gathering = try_all(alloc, request.setting, values, session)?;
    let table = table_text(alloc, request, &gathering)?;
    let mut bytes = Vec::new(alloc);
    push_firsts(&mut bytes, gathering.groups.as_slice())?;
    push_sentence(&mut bytes, &[Bytes(b"\n"), Bytes(table.as_slice())])?;
    Ok(ToolText {
        is_wrong: false,
        bytes,
    })
}
