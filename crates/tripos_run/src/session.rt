// The answer to the text of a session.
ghost use Rattle.std.specs.Prelude.{◌≡◌, ◌<◌, ◌^◌, length};
ghost use Rattle.session_text.specs.SessionOfText.{session_of};
ghost use Rattle.program_answers.specs.Answer.{Answers};
ghost use Rattle.tripos_run.specs.Answer.{session_answer};
ghost use Rattle.program_answers.specs.Cause.{HasFaultCause};
ghost use Rattle.program_answers.specs.Input.{IsTextEnd};
ghost use Rattle.tripos_run.specs.InputAnswers.{generated_answer};

use crate::machines::answer_session;
use crate::reports::Report;
use crate::session_generator::generate;
use byte_streams::{Sink, WantMemory};
use module_text::TextEnd;
use program_answers::{Status, status_after, write_refused};
use session_text::read_session;
use std::alloc::Global;

/// Makes the session of the number, runs it, and sums up what it writes.
pub fn answer_generated<K: Sink>(alloc: Global, n: u32, out: &mut K) -> Status
    ensures answer { Answers (generated_answer n) (K.holds out.old) (K.holds out.new) result }
    ensures ends { IsTextEnd result }
    ensures cause { HasFaultCause Status.WriteFault (K.faults out.old) (K.faults out.new) result }
{
    match generate(alloc, n) {
        Ok(text) => {
            let report = Report::Sums(text.len() as u64);
            answer_session_text(alloc, report, &text, out)
        }
        Err(WantMemory) => Status::WantMemory,
    }
}

/// Runs a session.
pub fn answer_session_text<K: Sink>(
    alloc: Global,
    report: Report,
    text: &[u8],
    out: &mut K,
) -> Status
    requires { length text.now < 2 ^ 32 }
    ensures answer { Answers (session_answer report (session_of text.now))
        (K.holds out.old) (K.holds out.new) result }
    ensures ends { IsTextEnd result }
    ensures cause { HasFaultCause Status.WriteFault (K.faults out.old) (K.faults out.new) result }
{
    match read_session(alloc, text) {
        Ok(session) => answer_session(alloc, report, &session, out),
        Err(TextEnd::Bad { line, code }) => {
            status_after(write_refused(out, line, code), Status::Refused)
        }
        Err(TextEnd::WantMemory) => Status::WantMemory,
    }
}
