// The program: the words of the command line and an input, to an exit status and the bytes written.
ghost use Rattle.std.specs.Prelude.{List, ℕ, map, string_bytes};
ghost use Rattle.byte_streams.specs.Sinks.{FailsBySink, PrintsTo};
ghost use Rattle.program_answers.specs.Answered.{Answered};
ghost use Rattle.program_answers.specs.Cause.{HasFaultCause, HasReadCause};
ghost use Rattle.program_answers.specs.Input.{IsInput};
ghost use Rattle.tools_run.specs.InputAnswers.{IsAnswer};
ghost use Rattle.tools_run.specs.Leaves.{Leaves};
ghost use Rattle.tools_run.specs.Words.{asked_of, usage_text};

use crate::commands::asked_of;
use byte_streams::{Sink, SinkFault, Source, write_text};
use program_answers::{Status, answer_input, status_after};
use std::alloc::Global;

/// Gives what the tool makes, for which the words of the command line ask, of all that the source has left.
pub fn tools<S: Source, K: Sink>(
    alloc: Global,
    words: &[String],
    src: &mut S,
    out: &mut K,
) -> Status
    // The status and the bytes are those of the answer to the words and the input, which is all that
    // the source had left.
    ensures answer { (input : List ℕ) × IsInput (S.left src.old) input
        × Answered (IsAnswer (map string_bytes words.now) input)
        (K.holds out.old) (K.holds out.new) result }

    // The input is read to its end, or to one byte past the limit. Nothing is read where the words
    // ask for nothing.
    ensures source { Leaves (asked_of (map string_bytes words.now))
        (S.left src.old) (S.left src.new) result }

    // The source is blamed exactly where it failed, and the sink only where its count of faults rose in
    // this call.
    ensures read_fault { HasReadCause (S.faults src.old) (S.faults src.new) result }
    ensures write_fault { HasFaultCause Status.WriteFault
        (K.faults out.old) (K.faults out.new) result }
{
    match asked_of(words) {
        Some(asked) => answer_input(alloc, &asked, src, out),
        None => status_after(write_usage(out), Status::Usage),
    }
}

// The words that there are.
fn write_usage<K: Sink>(out: &mut K) -> Result<(), SinkFault>
    ensures text { PrintsTo K.Sink out.old out.new usage_text result }
    ensures cause { FailsBySink K.Sink out.old out.new result }
{
    write_text(
        out,
        b"* usage: tripos_tools TOOL or TOOL NAME, where TOOL is asm, asm-errors, asm-notes, asm-places, session, picture, marks, unasm, needs or partings\n",
    )
}
