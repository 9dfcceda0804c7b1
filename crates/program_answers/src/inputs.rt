// An input is read to its end, and answered.
ghost use Rattle.std.specs.Prelude.{◌≡◌, ◌<◌, ◌^◌, List, ℕ, length};
ghost use Rattle.program_answers.specs.Answer.{Answer};
ghost use Rattle.program_answers.specs.Answered.{Answered};
ghost use Rattle.program_answers.specs.Cause.{HasFaultCause, HasReadCause};
ghost use Rattle.program_answers.specs.Input.{InputLeaves, IsInput, IsInputAnswer, IsTextEnd};

use crate::Status;
use crate::messages::{status_after, write_too_long};
use byte_streams::{ReadEnd, Sink, Source, read_all};
use std::alloc::Global;

const LIMIT: usize = 67_108_864;

/// What a program is asked to do with its input.
pub trait TextAnswers {
    /// Whether a text has this answer.
    ghost is_answer: { Self → List ℕ → Answer → Type 0 };

    /// Answers a text.
    fn answer<K: Sink>(&self, alloc: Global, text: &[u8], out: &mut K) -> Status
        requires { length text.now < 2 ^ 30 }
        ensures answer { Answered (is_answer self.now text.now)
            (K.holds out.old) (K.holds out.new) result }
        ensures ends { IsTextEnd result }
        ensures cause { HasFaultCause Status.WriteFault
            (K.faults out.old) (K.faults out.new) result };
}

/// Reads all that the source has left, and answers it.
pub fn answer_input<A: TextAnswers, S: Source, K: Sink>(
    alloc: Global,
    asked: &A,
    src: &mut S,
    out: &mut K,
) -> Status
    ensures answer { (input : List ℕ) × IsInput (S.left src.old) input
        × Answered (IsInputAnswer (A.is_answer asked.now) input)
        (K.holds out.old) (K.holds out.new) result }
    // The input is read to its end, or to one byte past the limit.
    ensures source { InputLeaves (S.left src.old) (S.left src.new) result }
    // The source is blamed exactly where it failed, and the sink only where its count of faults rose in
    // this call.
    ensures read_fault { HasReadCause (S.faults src.old) (S.faults src.new) result }
    ensures write_fault { HasFaultCause Status.WriteFault
        (K.faults out.old) (K.faults out.new) result }
{
    match read_all(alloc, src, LIMIT) {
        Ok(text) => asked.answer(alloc, &text, out),
        Err(ReadEnd::TooLong) => status_after(write_too_long(out), Status::TooLong),
        Err(ReadEnd::Fault) => Status::ReadFault,
        Err(ReadEnd::WantMemory) => Status::WantMemory,
    }
}
