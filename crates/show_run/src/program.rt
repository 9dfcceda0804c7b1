// The program: the words of the command line and an input, to an exit status and the bytes written.
ghost use Rattle.std.specs.Prelude.{List, ℕ, map, string_bytes};
ghost use Rattle.program_answers.specs.Answered.{Answered};
ghost use Rattle.program_answers.specs.Cause.{HasFaultCause, HasReadCause};
ghost use Rattle.program_answers.specs.Input.{IsInput};
ghost use Rattle.byte_streams.specs.Sinks.{FailsBySink, PrintsTo};
ghost use Rattle.show_run.specs.InputAnswers.{IsAnswer, IsShowAnswer, IsTellingAnswer};
ghost use Rattle.show_run.specs.Leaves.{Leaves, LeavesAsked, LeavesTold};
ghost use Rattle.show_run.specs.Tellings.{telling_of};
ghost use Rattle.show_run.specs.ValueTries.TryWords.{tries_of};
ghost use Rattle.show_run.specs.Words.{show_of, usage_text};

use crate::Show;
use crate::commands::show_of;
use crate::tellings::{Telling, telling_of};
use crate::value_tries::words::tries_of;
use byte_streams::{Sink, SinkFault, Source, write_text};
use program_answers::{Status, answer_input, status_after};
use std::alloc::{AllocError, Global};

/// Shows what the words of the command line ask for, of the session that is all that the source has left, or of the session in the bundle
/// that this is.
pub fn show<S: Source, K: Sink>(alloc: Global, words: &[String], src: &mut S, out: &mut K) -> Status
    // The status and the bytes are those of the answer to the words and the input, which is all that
    // the source had left.
    ensures answer { (input : List ℕ) × IsInput (S.left src.old) input
        × Answered (IsAnswer (map string_bytes words.now) input)
        (K.holds out.old) (K.holds out.new) result }

    // The input is read to its end, or to one byte past the limit. Nothing is read where the words
    // ask for nothing.
    ensures source { LeavesAsked (tries_of (map string_bytes words.now))
        (telling_of (map string_bytes words.now)) (show_of (map string_bytes words.now))
        (S.left src.old) (S.left src.new) result }

    // The source is blamed exactly where it failed, and the sink only where its count of faults rose in
    // this call.
    ensures read_fault { HasReadCause (S.faults src.old) (S.faults src.new) result }
    ensures write_fault { HasFaultCause Status.WriteFault
        (K.faults out.old) (K.faults out.new) result }
{
    match tries_of(alloc, words) {
        Ok(Some(tries)) => answer_input(alloc, &tries, src, out),
        Ok(None) => tell_asked(alloc, telling_of(words), show_of(words), src, out),
        Err(AllocError) => Status::WantMemory,
    }
}

// Tells what is asked for in words, or shows what else is asked for.
fn tell_asked<S: Source, K: Sink>(
    alloc: Global,
    telling: Option<Telling>,
    asked: Option<Show>,
    src: &mut S,
    out: &mut K,
) -> Status
    ensures answer { (input : List ℕ) × IsInput (S.left src.old) input
        × Answered (IsTellingAnswer telling asked input) (K.holds out.old) (K.holds out.new) result }
    ensures source { LeavesTold telling asked (S.left src.old) (S.left src.new) result }
    ensures read_fault { HasReadCause (S.faults src.old) (S.faults src.new) result }
    ensures write_fault { HasFaultCause Status.WriteFault
        (K.faults out.old) (K.faults out.new) result }
{
    match telling {
        Some(telling) => answer_input(alloc, &telling, src, out),
        None => show_asked(alloc, asked, src, out),
    }
}

// Shows what is asked for, or writes the usage where nothing is.
fn show_asked<S: Source, K: Sink>(
    alloc: Global,
    asked: Option<Show>,
    src: &mut S,
    out: &mut K,
) -> Status
    ensures answer { (input : List ℕ) × IsInput (S.left src.old) input
        × Answered (IsShowAnswer asked input) (K.holds out.old) (K.holds out.new) result }
    ensures source { Leaves asked (S.left src.old) (S.left src.new) result }
    ensures read_fault { HasReadCause (S.faults src.old) (S.faults src.new) result }
    ensures write_fault { HasFaultCause Status.WriteFault
        (K.faults out.old) (K.faults out.new) result }
{
    match asked {
        Some(asked) => answer_input(alloc, &asked, src, out),
        None => status_after(write_usage(out), Status::Usage),
    }
}

// The words that there are.
fn write_usage<K: Sink>(out: &mut K) -> Result<(), SinkFault>
    ensures text { PrintsTo K.Sink out.old out.new usage_text result }
    ensures cause { FailsBySink K.Sink out.old out.new result }
{
    write_text(
        out,
        b"* usage: tripos_show state, log or log FIRST LAST, writes A or writes A FIRST LAST, places, words, events, moment, errors, outcomes, variant, tries tick, key K, priority TASK or stack TASK, and values: N or N-M\n",
    )
}
