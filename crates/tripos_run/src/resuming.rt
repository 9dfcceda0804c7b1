// The answer to the text of a saved machine.
ghost use Rattle.std.specs.Prelude.{◌≡◌, ◌<◌, ◌≤◌, ◌+◌, ◌^◌, length};
ghost use Rattle.kernel_model.specs.KernelRecord.Ranges.{most_steps};
ghost use Rattle.tripos_machine.specs.State.{steps_of};
ghost use Rattle.saved_text.specs.Canonical.{IsLawful};
ghost use Rattle.program_answers.specs.Answer.{Answers};
ghost use Rattle.program_answers.specs.Cause.{HasFaultCause};
ghost use Rattle.program_answers.specs.Input.{IsTextEnd};
ghost use Rattle.tripos_run.specs.Input.{IsMachineEnd};
ghost use Rattle.program_answers.specs.Answered.{Answered};
ghost use Rattle.tripos_run.specs.SavedAnswers.{IsResumedImage, IsResumedText, no_machine_code, resumed_answer};

use crate::ends::{status_of, write_end};
use crate::reports::Report;
use byte_streams::{Output, Sink, SinkFault, WantMemory};
use kernel_lists::NoLog;
use module_text::TextEnd;
use program_answers::{Status, status_after, write_refused};
use saved_machine::machine_of;
use saved_text::{Image, read_image};
use std::alloc::Global;
use tripos_machine::Machine;

/// The code of a text that has the form of a saved machine, and is none.
const NO_MACHINE: u32 = 10;

/// Goes on with the machine of a text.
pub(crate) fn answer_resuming<K: Sink>(alloc: Global, text: &[u8], out: &mut K) -> Status
    requires { length text.now < 2 ^ 32 }
    ensures answer { Answered (IsResumedText text.now) (K.holds out.old) (K.holds out.new) result }
    ensures ends { IsTextEnd result }
    ensures cause { HasFaultCause Status.WriteFault (K.faults out.old) (K.faults out.new) result }
{
    match read_image(alloc, text) {
        Ok(read) => resume_image(alloc, read.image, read.lines, out),
        Err(TextEnd::Bad { line, code }) => {
            status_after(write_refused(out, line, code), Status::Refused)
        }
        Err(TextEnd::WantMemory) => Status::WantMemory,
    }
}

// Goes on with the machine of an image, whose text has so many lines.
fn resume_image<K: Sink>(alloc: Global, image: Image, last: u32, out: &mut K) -> Status
    requires { IsLawful image }
    ensures answer { Answered (IsResumedImage last image) (K.holds out.old) (K.holds out.new) result }
    ensures ends { IsTextEnd result }
    ensures cause { HasFaultCause Status.WriteFault (K.faults out.old) (K.faults out.new) result }
{
    let go = image.go;
    match machine_of(alloc, image) {
        Ok(Some(mut machine)) => resume_machine(&mut machine, go, out),
        Ok(None) => status_after(write_refused(out, last, NO_MACHINE), Status::Refused),
        Err(WantMemory) => Status::WantMemory,
    }
}

// Runs a machine for so many steps more.
fn resume_machine<K: Sink>(machine: &mut Machine, go: u64, out: &mut K) -> Status
    requires { steps_of machine.old.state + go ≤ most_steps }
    ensures answer { Answers (resumed_answer go machine.old.state)
        (K.holds out.old) (K.holds out.new) result }
    ensures ends { IsMachineEnd result }
    ensures cause { HasFaultCause Status.WriteFault (K.faults out.old) (K.faults out.new) result }
{
    let before = machine.steps();
    let mut pending = Output::new();
    let stop = match machine.run(go, out, &mut pending, &mut NoLog) {
        Ok(stop) => stop,
        Err(SinkFault) => return Status::WriteFault,
    };
    let steps = machine.steps() - before;
    let end = write_end(
        Report::Console,
        steps,
        stop,
        machine.store(),
        out,
        &mut pending,
    );
    status_after(end, status_of(stop))
}
