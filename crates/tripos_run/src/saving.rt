// The answer to a session whose machine is saved.
ghost use Rattle.std.specs.Prelude.{◌<◌, ◌≤◌, ◌+◌, ◌^◌, length};
ghost use Rattle.byte_streams.specs.Sinks.{FailsBySink, PrintsTo};
ghost use Rattle.session_text.specs.Canonical.{IsLawful};
ghost use Rattle.session_text.specs.SessionOfText.{session_of};
ghost use Rattle.tripos_machine.specs.Boot.{boot};
ghost use Rattle.kernel_model.specs.KernelRecord.Ranges.{most_steps};
ghost use Rattle.tripos_machine.specs.State.{IsSound, steps_of};
ghost use Rattle.tripos_machine.specs.Step.{run};
ghost use Rattle.saved_text.specs.Canonical.{canonical};
ghost use Rattle.saved_machine.specs.ImagePrint.Numbers.{HasWordsAndBytes};
ghost use Rattle.saved_machine.specs.ImagePrint.SavedImage.{saved_image};
ghost use Rattle.program_answers.specs.Answered.{Answered};
ghost use Rattle.program_answers.specs.Cause.{HasFaultCause};
ghost use Rattle.program_answers.specs.Input.{IsTextEnd};
ghost use Rattle.tripos_run.specs.Input.{IsMachineEnd};
ghost use Rattle.tripos_run.specs.SavedAnswers.{IsSaved, IsSavedSession, IsSavedState};
ghost use Rattle.tripos_run.specs.Texts.{closing_text};

use crate::ends::status_of;
use crate::messages::gather_closing;
use byte_streams::{Output, Sink, SinkFault, pass_on};
use kernel_model::Stop;
use module_text::TextEnd;
use program_answers::{Status, status_after, write_no_boot, write_refused};
use saved_machine::image_print::print_image;
use session_text::{BootEnd, Session, read_session};
use std::alloc::Global;
use tripos_machine::{Machine, boot};

/// Runs a session, and writes the text of its machine.
pub(crate) fn answer_saving<K: Sink>(alloc: Global, text: &[u8], out: &mut K) -> Status
    requires { length text.now < 2 ^ 32 }
    ensures answer { Answered (IsSaved (session_of text.now))
        (K.holds out.old) (K.holds out.new) result }
    ensures ends { IsTextEnd result }
    ensures cause { HasFaultCause Status.WriteFault (K.faults out.old) (K.faults out.new) result }
{
    match read_session(alloc, text) {
        Ok(session) => save_session(alloc, &session, out),
        Err(TextEnd::Bad { line, code }) => {
            status_after(write_refused(out, line, code), Status::Refused)
        }
        Err(TextEnd::WantMemory) => Status::WantMemory,
    }
}

// Boots a session, and writes the text of its machine after its steps.
fn save_session<K: Sink>(alloc: Global, session: &Session, out: &mut K) -> Status
    requires { IsLawful session.now }
    ensures answer { Answered (IsSavedSession session.now (boot session.now))
        (K.holds out.old) (K.holds out.new) result }
    ensures ends { IsTextEnd result }
    ensures cause { HasFaultCause Status.WriteFault (K.faults out.old) (K.faults out.new) result }
{
    match boot(alloc, session) {
        Ok(mut machine) => run_and_save(&mut machine, session, out),
        Err(BootEnd::Line { line, code }) => {
            status_after(write_no_boot(out, line, code), Status::NoBoot)
        }
        Err(BootEnd::WantMemory) => Status::WantMemory,
    }
}

// Runs a machine of the session that was booted just now, and writes its text. Memory is wanted no more.
fn run_and_save<K: Sink>(machine: &mut Machine, session: &Session, out: &mut K) -> Status
    requires { steps_of machine.old.state + session.now.go ≤ most_steps }
    ensures answer { Answered
        (IsSavedState session.now (run session.now.go machine.old.state).state)
        (K.holds out.old) (K.holds out.new) result }
    ensures ends { IsMachineEnd result }
    ensures cause { HasFaultCause Status.WriteFault (K.faults out.old) (K.faults out.new) result }
{
    machine.run_unheard(session.go);
    save_machine(machine, session, out)
}

// Writes the text of a machine of the session, or its closing line where it has stopped.
fn save_machine<K: Sink>(machine: &Machine, session: &Session, out: &mut K) -> Status
    ensures answer { Answered (IsSavedState session.now machine.now.state)
        (K.holds out.old) (K.holds out.new) result }
    ensures ends { IsMachineEnd result }
    ensures cause { HasFaultCause Status.WriteFault (K.faults out.old) (K.faults out.new) result }
{
    match machine.stop() {
        None => status_after(write_machine(machine, session, out), Status::Done),
        Some(stop) => status_after(write_closing(machine.steps(), stop, out), status_of(stop)),
    }
}

// Writes the text of a machine of the session.
fn write_machine<K: Sink>(
    machine: &Machine,
    session: &Session,
    out: &mut K,
) -> Result<(), SinkFault>
    ensures text { PrintsTo K.Sink out.old out.new
        (canonical (saved_image session.now.version machine.now.state session.now.go)) result }
    ensures sound { IsSound machine.now.state }
    ensures numbers { HasWordsAndBytes machine.now.state }
    ensures cause { FailsBySink K.Sink out.old out.new result }
{
    let mut pending = Output::new();
    print_image(machine, session.version, session.go, out, &mut pending)?;
    pass_on(out, &mut pending)
}

// Writes the closing line.
fn write_closing<K: Sink>(steps: u64, stop: Stop, out: &mut K) -> Result<(), SinkFault>
    ensures text { PrintsTo K.Sink out.old out.new (closing_text steps stop) result }
    ensures cause { FailsBySink K.Sink out.old out.new result }
{
    let mut pending = Output::new();
    gather_closing(steps, stop, out, &mut pending)?;
    pass_on(out, &mut pending)
}
