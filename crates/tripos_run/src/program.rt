// The program: the words of the command line and an input, to an exit status and the bytes written.
ghost use Rattle.std.specs.Prelude.{List, ℕ, map, string_bytes};
ghost use Rattle.program_answers.specs.Answered.{Answered};
ghost use Rattle.program_answers.specs.Cause.{HasFaultCause, HasReadCause};
ghost use Rattle.program_answers.specs.Input.{IsInput};
ghost use Rattle.tripos_run.specs.Input.{Leaves};
ghost use Rattle.tripos_run.specs.InputAnswers.{IsAnswer};
ghost use Rattle.tripos_run.specs.Words.{job_of};

use crate::commands::{Job, job_of};
use crate::messages::write_usage;
use crate::session::answer_generated;
use byte_streams::{Sink, Source};
use program_answers::{Status, answer_input, status_after};
use std::alloc::Global;

/// Answers the words of the command line and all that the source has left.
pub fn tripos<S: Source, K: Sink>(
    alloc: Global,
    words: &[String],
    src: &mut S,
    out: &mut K,
) -> Status
    // The status and the bytes are those of the answer to the words and the input, which is all that
    // the source had left.
    ensures answer { (input : List ℕ) × IsInput (S.left src.old) input
        × Answered (IsAnswer (map string_bytes words.now) input)
        (K.holds out.old) (K.holds out.new) result }

    // The input is read to its end, or to one byte past the limit. Nothing is read where the words
    // ask for nothing, or for a session that is generated.
    ensures source { Leaves (job_of (map string_bytes words.now))
        (S.left src.old) (S.left src.new) result }

    // The source is blamed exactly where it failed, and the sink only where its count of faults rose in
    // this call.
    ensures read_fault { HasReadCause (S.faults src.old) (S.faults src.new) result }
    ensures write_fault { HasFaultCause Status.WriteFault
        (K.faults out.old) (K.faults out.new) result }
{
    match job_of(words) {
        Some(Job::Answer(command)) => answer_input(alloc, &command, src, out),
        Some(Job::Generate(n)) => answer_generated(alloc, n, out),
        None => status_after(write_usage(out), Status::Usage),
    }
}
