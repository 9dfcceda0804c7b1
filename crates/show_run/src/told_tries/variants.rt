// A session with another value of one number, as a text.
ghost use Rattle.std.specs.Prelude.{◌≡◌, IfOk, IsTrue};
ghost use Rattle.tool_texts.specs.Told.{told_of};
ghost use Rattle.show_run.specs.ToldTries.{IsVariant};
ghost use Rattle.show_run.specs.ValueTries.Settings.{is_in_range, session_with};

use crate::no_machines::{RunEnd, entries_of, session_of, told_end};
use crate::told_tries::requests::variant_of;
use crate::told_tries::wrongs::{SCRIPT, not_there, out_of_range};
use crate::value_tries::settings::{Setting, is_in_range, is_there, set};
use session_text::{Session, print_session};
use std::alloc::{AllocError, Global};
use text_sinks::TextSink;
use tool_texts::ToolText;

/// The text of the session that a bundle names, with another value of one number; or why there is none.
pub(crate) fn variant_text(alloc: Global, bundle: &[u8]) -> Result<ToolText, AllocError> {
    match told_text(alloc, bundle) {
        Ok(told) => Ok(told),
        Err(end) => told_end(alloc, SCRIPT, end),
    }
}

fn told_text(alloc: Global, bundle: &[u8]) -> Result<ToolText, RunEnd> {
    let entries = entries_of(alloc, bundle)?;
    let asked = variant_of(entries.as_slice()).ok_or(RunEnd::NoRequest)?;
    let mut session = session_of(alloc, asked.session)?;
    if !is_there(asked.setting, &session) {
        return Ok(not_there(alloc, asked.setting, asked.name, &session)?);
    }
    if !is_in_range(asked.setting, asked.value) {
        return Ok(out_of_range(alloc, asked.setting, asked.value)?);
    }
    Ok(text_with(alloc, asked.setting, asked.value, &mut session)?)
}

// The text of the session with this value, which it has afterwards.
fn text_with(
    alloc: Global,
    setting: Setting,
    value: u64,
    session: &mut Session,
) -> Result<ToolText, AllocError>
    requires { IsTrue (is_in_range setting value) }
    ensures { IfOk result (λ t. IsVariant (session_with setting value session.old) (told_of t)) }
{
    set(alloc, setting, value, session);
    let mut text = TextSink::new(alloc);
    match print_session(session, &mut text) {
        Ok(()) => Ok(ToolText {
            is_wrong: false,
            bytes: text.bytes,
        }),
        Err(_) => Err(AllocError),
    }
}
