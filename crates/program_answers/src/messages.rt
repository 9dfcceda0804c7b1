// The texts of an input that has no other answer.
ghost use Rattle.std.specs.Prelude.{◌≡◌, is_ok, if◌then◌else◌};
ghost use Rattle.byte_streams.specs.Sinks.{FailsBySink, PrintsTo};
ghost use Rattle.program_answers.specs.Texts.{no_boot_text, refused_text, too_long_text};

use crate::Status;
use byte_streams::Piece::{Decimal, Text};
use byte_streams::{Sink, SinkFault, write_pieces, write_text};

/// The status of a call that has printed its text, or the sink's failure.
pub fn status_after(end: Result<(), SinkFault>, status: Status) -> Status
    ensures { result ≡ (if is_ok end then status else Status.WriteFault) }
{
    match end {
        Ok(()) => status,
        Err(SinkFault) => Status::WriteFault,
    }
}

// The input is too long.
pub(crate) fn write_too_long<K: Sink>(out: &mut K) -> Result<(), SinkFault>
    ensures text { PrintsTo K.Sink out.old out.new too_long_text result }
    ensures cause { FailsBySink K.Sink out.old out.new result }
{
    write_text(out, b"* input too long\n")
}

/// Where and why the input was refused.
pub fn write_refused<K: Sink>(out: &mut K, line: u32, code: u32) -> Result<(), SinkFault>
    ensures text { PrintsTo K.Sink out.old out.new
        (refused_text (record { line = line; code = code })) result }
    ensures cause { FailsBySink K.Sink out.old out.new result }
{
    write_pieces(
        out,
        &[
            Text(b"* refused: line "),
            Decimal(line as u64),
            Text(b" code "),
            Decimal(code as u64),
            Text(b"\n"),
        ],
    )
}

/// Where and why the session does not boot.
pub fn write_no_boot<K: Sink>(out: &mut K, line: u32, code: u32) -> Result<(), SinkFault>
    ensures text { PrintsTo K.Sink out.old out.new
        (no_boot_text (record { line = line; code = code })) result }
    ensures cause { FailsBySink K.Sink out.old out.new result }
{
    write_pieces(
        out,
        &[
            Text(b"* no boot: line "),
            Decimal(line as u64),
            Text(b" code "),
            Decimal(code as u64),
            Text(b"\n"),
        ],
    )
}
