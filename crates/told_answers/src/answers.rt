// The answer that says what a tool gives.
ghost use Rattle.byte_streams.specs.Write.{Prints};
ghost use Rattle.program_answers.specs.Answer.{Answers};
ghost use Rattle.program_answers.specs.Cause.{HasFaultCause};
ghost use Rattle.program_answers.specs.Input.{IsTextEnd};
ghost use Rattle.tool_texts.specs.Told.{told_of};
ghost use Rattle.told_answers.specs.ToldAnswers.{told_answer};

use byte_streams::{Sink, write_text};
use program_answers::{Status, status_after};
use tool_texts::ToolText;

/// Writes what a tool gives. The status is that of a refusal where something is wrong in the input, and says that the sink failed where
/// it did: then a prefix is written.
pub fn write_told<K: Sink>(told: &ToolText, out: &mut K) -> Status
    ensures answer { Answers (told_answer (told_of told.now)) (K.holds out.old) (K.holds out.new) result }
    ensures ends { IsTextEnd result }
    ensures cause { HasFaultCause Status.WriteFault (K.faults out.old) (K.faults out.new) result }
{
    let status = if told.is_wrong {
        Status::Refused
    } else {
        Status::Done
    };
    status_after(write_text(out, told.bytes.as_slice()), status)
}
