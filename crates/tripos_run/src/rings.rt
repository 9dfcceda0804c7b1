// The answer to the text of a ring.
ghost use Rattle.std.specs.Prelude.{◌≡◌, ◌<◌, ◌++◌, ◌^◌, length};
ghost use Rattle.byte_streams.specs.Sinks.{FailsBySink, PrintsTo};
ghost use Rattle.machine_ring.specs.Boot.{booted_ring};
ghost use Rattle.machine_ring.specs.RingLink.LawfulRing.{IsLawfulRing};
ghost use Rattle.program_answers.specs.Answer.{Answers};
ghost use Rattle.program_answers.specs.Cause.{HasFaultCause};
ghost use Rattle.program_answers.specs.Input.{IsTextEnd};
ghost use Rattle.tripos_run.specs.Input.{IsMachineEnd};
ghost use Rattle.tripos_run.specs.RingAnswers.{booted_answer, ring_answer, ring_text, run_ring_answer};

use crate::ends::status_of;
use byte_streams::Piece::{Decimal, Text};
use byte_streams::{Output, Sink, SinkFault, gather_pieces, pass_on};
use machine_ring::{Ring, RingInput, RingOutcome, read_ring};
use module_text::TextEnd;
use program_answers::{Status, status_after, write_no_boot, write_refused};
use session_text::BootEnd;
use std::alloc::Global;

/// Runs the ring of a text, and writes the console bytes of its right machine.
pub(crate) fn answer_ring<K: Sink>(alloc: Global, text: &[u8], out: &mut K) -> Status
    requires { length text.now < 2 ^ 32 }
    ensures answer { Answers (ring_answer text.now) (K.holds out.old) (K.holds out.new) result }
    ensures ends { IsTextEnd result }
    ensures cause { HasFaultCause Status.WriteFault (K.faults out.old) (K.faults out.new) result }
{
    match read_ring(alloc, text) {
        Ok(input) => boot_ring(alloc, &input, out),
        Err(TextEnd::Bad { line, code }) => {
            status_after(write_refused(out, line, code), Status::Refused)
        }
        Err(TextEnd::WantMemory) => Status::WantMemory,
    }
}

// Boots the machines of a ring, and takes its rounds.
fn boot_ring<K: Sink>(alloc: Global, input: &RingInput, out: &mut K) -> Status
    requires { IsLawfulRing input.now }
    ensures answer { Answers (booted_answer (booted_ring input.now))
        (K.holds out.old) (K.holds out.new) result }
    ensures ends { IsTextEnd result }
    ensures cause { HasFaultCause Status.WriteFault (K.faults out.old) (K.faults out.new) result }
{
    match Ring::new(alloc, input) {
        Ok(ring) => run_ring(ring, out),
        Err(BootEnd::Line { line, code }) => {
            status_after(write_no_boot(out, line, code), Status::NoBoot)
        }
        Err(BootEnd::WantMemory) => Status::WantMemory,
    }
}

// Takes the rounds of a ring.
fn run_ring<K: Sink>(ring: Ring, out: &mut K) -> Status
    ensures answer { Answers (run_ring_answer ring) (K.holds out.old) (K.holds out.new) result }
    ensures ends { IsMachineEnd result }
    ensures cause { HasFaultCause Status.WriteFault (K.faults out.old) (K.faults out.new) result }
{
    let mut pending = Output::new();
    let outcome = match ring.run(out, &mut pending) {
        Ok(outcome) => outcome,
        Err(SinkFault) => return Status::WriteFault,
    };
    let end = write_outcome(outcome, out, &mut pending);
    status_after(end, status_of(outcome.end))
}

// Writes what is pending, and the closing line.
fn write_outcome<K: Sink>(
    outcome: RingOutcome,
    out: &mut K,
    pending: &mut Output,
) -> Result<(), SinkFault>
    ensures text { PrintsTo K.Sink out.old out.new
        (pending.old ++ ring_text outcome) result }
    ensures cause { FailsBySink K.Sink out.old out.new result }
{
    gather_pieces(
        out,
        pending,
        &[
            Text(b"\n* ring after "),
            Decimal(outcome.rounds),
            Text(b" rounds: sent "),
            Decimal(outcome.sent),
            Text(b" delivered "),
            Decimal(outcome.delivered),
            Text(b" acknowledged "),
            Decimal(outcome.acknowledged),
            Text(b"\n"),
        ],
    )?;
    pass_on(out, pending)
}
