// The answer to the text of a session, of which values are tried.
ghost use Rattle.std.specs.Prelude.{◌<◌, ◌^◌, length};
ghost use Rattle.session_text.specs.Canonical.{IsLawful};
ghost use Rattle.session_text.specs.SessionOfText.{session_of};
ghost use Rattle.program_answers.specs.Answer.{Answers};
ghost use Rattle.program_answers.specs.Answered.{Answered};
ghost use Rattle.program_answers.specs.Cause.{HasFaultCause};
ghost use Rattle.program_answers.specs.Input.{IsTextEnd};
ghost use Rattle.show_run.specs.ValueTries.TriesAnswers.{IsTried, IsTriedBy, session_answer, tries_answer};
ghost use Rattle.show_run.specs.ValueTries.TryWords.{asked};

use crate::value_tries::runs::try_all;
use crate::value_tries::settings::Setting;
use crate::value_tries::spans::Span;
use crate::value_tries::texts::write_gathering;
use crate::value_tries::words::Tries;
use byte_streams::Sink;
use module_text::TextEnd;
use program_answers::{Status, TextAnswers, status_after, write_refused};
use session_text::{Session, read_session};
use std::alloc::{AllocError, Global};

impl TextAnswers for Tries {
    ghost is_answer = { IsTriedBy };

    fn answer<K: Sink>(&self, alloc: Global, text: &[u8], out: &mut K) -> Status {
        answer_text(alloc, self.setting, self.spans.as_slice(), text, out)
    }
}

// The values are tried of the session that a text is.
fn answer_text<K: Sink>(
    alloc: Global,
    setting: Setting,
    spans: &[Span],
    text: &[u8],
    out: &mut K,
) -> Status
    requires { length text.now < 2 ^ 30 }
    ensures answer { Answered (IsTried (asked setting spans.now) text.now)
        (K.holds out.old) (K.holds out.new) result }
    ensures ends { IsTextEnd result }
    ensures cause { HasFaultCause Status.WriteFault (K.faults out.old) (K.faults out.new) result }
{
    answer_session_text(alloc, setting, spans, text, out)
}

// Reads a session, and tries the values.
fn answer_session_text<K: Sink>(
    alloc: Global,
    setting: Setting,
    spans: &[Span],
    text: &[u8],
    out: &mut K,
) -> Status
    requires { length text.now < 2 ^ 30 }
    ensures answer { Answers (tries_answer (asked setting spans.now) (session_of text.now))
        (K.holds out.old) (K.holds out.new) result }
    ensures ends { IsTextEnd result }
    ensures cause { HasFaultCause Status.WriteFault (K.faults out.old) (K.faults out.new) result }
{
    match read_session(alloc, text) {
        Ok(mut session) => answer_session(alloc, setting, spans, &mut session, out),
        Err(TextEnd::Bad { line, code }) => {
            status_after(write_refused(out, line, code), Status::Refused)
        }
        Err(TextEnd::WantMemory) => Status::WantMemory,
    }
}

// Tries the values, and writes what they came to.
fn answer_session<K: Sink>(
    alloc: Global,
    setting: Setting,
    spans: &[Span],
    session: &mut Session,
    out: &mut K,
) -> Status
    requires { IsLawful session.old }
    ensures answer { Answers (session_answer (asked setting spans.now) session.old)
        (K.holds out.old) (K.holds out.new) result }
    ensures ends { IsTextEnd result }
    ensures cause { HasFaultCause Status.WriteFault (K.faults out.old) (K.faults out.new) result }
{
    match try_all(alloc, setting, spans, session) {
        Ok(gathering) => status_after(write_gathering(&gathering, out), Status::Done),
        Err(AllocError) => Status::WantMemory,
    }
}
