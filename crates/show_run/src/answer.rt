// The answer to the text of a session.
ghost use Rattle.std.specs.Prelude.{◌<◌, ◌^◌, length};
ghost use Rattle.session_text.specs.Canonical.{IsLawful};
ghost use Rattle.session_text.specs.SessionOfText.{session_of};
ghost use Rattle.tripos_machine.specs.Boot.{boot};
ghost use Rattle.program_answers.specs.Answer.{Answers};
ghost use Rattle.program_answers.specs.Answered.{Answered};
ghost use Rattle.program_answers.specs.Cause.{HasFaultCause};
ghost use Rattle.program_answers.specs.Input.{IsTextEnd};
ghost use Rattle.show_run.specs.InputAnswers.{IsShown};
ghost use Rattle.show_run.specs.SessionPrograms.{named_programs};
ghost use Rattle.show_run.specs.ShortFiles.{HasShortFiles};
ghost use Rattle.show_run.specs.ShownAnswers.{machine_answer, session_answer};

use crate::Show;
use crate::machines::answer_shown;
use crate::programs::named_programs;
use byte_streams::Sink;
use module_text::TextEnd;
use program_answers::{Status, TextAnswers, status_after, write_no_boot, write_refused};
use session_text::{BootEnd, Session, read_session};
use state_text::Program;
use std::alloc::Global;
use tripos_machine::boot as boot_machine;

impl TextAnswers for Show {
    ghost is_answer = { IsShown };

    fn answer<K: Sink>(&self, alloc: Global, text: &[u8], out: &mut K) -> Status {
        answer_text(alloc, *self, text, out)
    }
}

// What is asked for is shown of the session that a text is.
fn answer_text<K: Sink>(alloc: Global, asked: Show, text: &[u8], out: &mut K) -> Status
    requires { length text.now < 2 ^ 30 }
    ensures answer { Answered (IsShown asked text.now) (K.holds out.old) (K.holds out.new) result }
    ensures ends { IsTextEnd result }
    ensures cause { HasFaultCause Status.WriteFault (K.faults out.old) (K.faults out.new) result }
{
    answer_session_text(alloc, asked, text, out)
}

// Reads a session, and shows what is asked for of its run.
fn answer_session_text<K: Sink>(alloc: Global, asked: Show, text: &[u8], out: &mut K) -> Status
    requires { length text.now < 2 ^ 30 }
    ensures answer { Answers (session_answer asked (session_of text.now))
        (K.holds out.old) (K.holds out.new) result }
    ensures ends { IsTextEnd result }
    ensures cause { HasFaultCause Status.WriteFault (K.faults out.old) (K.faults out.new) result }
{
    match read_session(alloc, text) {
        Ok(session) => answer_session(alloc, asked, &session, out),
        Err(TextEnd::Bad { line, code }) => {
            status_after(write_refused(out, line, code), Status::Refused)
        }
        Err(TextEnd::WantMemory) => Status::WantMemory,
    }
}

// Reads the programs of a session, boots it, and shows what is asked for of its run.
fn answer_session<K: Sink>(alloc: Global, asked: Show, session: &Session, out: &mut K) -> Status
    requires lawful { IsLawful session.now }
    requires short { HasShortFiles session.now }
    ensures answer { Answers (machine_answer asked (named_programs asked session.now)
        session.now.go (boot session.now)) (K.holds out.old) (K.holds out.new) result }
    ensures ends { IsTextEnd result }
    ensures cause { HasFaultCause Status.WriteFault (K.faults out.old) (K.faults out.new) result }
{
    match named_programs(alloc, asked, session) {
        Ok(programs) => answer_machine(alloc, asked, session, programs.as_slice(), out),
        Err(_) => Status::WantMemory,
    }
}

// Boots a session, and shows what is asked for of its run, with the names of these programs.
fn answer_machine<K: Sink>(
    alloc: Global,
    asked: Show,
    session: &Session,
    programs: &[Program],
    out: &mut K,
) -> Status
    requires { IsLawful session.now }
    ensures answer { Answers (machine_answer asked programs.now session.now.go (boot session.now))
        (K.holds out.old) (K.holds out.new) result }
    ensures ends { IsTextEnd result }
    ensures cause { HasFaultCause Status.WriteFault (K.faults out.old) (K.faults out.new) result }
{
    match boot_machine(alloc, session) {
        Ok(mut machine) => answer_shown(alloc, asked, programs, &mut machine, session.go, out),
        Err(BootEnd::Line { line, code }) => {
            status_after(write_no_boot(out, line, code), Status::NoBoot)
        }
        Err(BootEnd::WantMemory) => Status::WantMemory,
    }
}
