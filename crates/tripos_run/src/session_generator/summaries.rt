// The lines that sum up a run.
ghost use Rattle.byte_streams.specs.Sinks.{FailsBySink, GathersFor};
ghost use Rattle.tripos_run.specs.SessionGenerator.Summary.{summary};

use crate::session_generator::Tally;
use byte_streams::Piece::{Decimal, Text, Word};
use byte_streams::{Output, Sink, SinkFault, gather_pieces};

/// Adds three lines to what is pending: how many bytes the session has, how many the console has shown, and their hash.
pub fn gather_summary<K: Sink>(
    session_bytes: u64,
    console: &Tally,
    out: &mut K,
    pending: &mut Output,
) -> Result<(), SinkFault>
    ensures text { GathersFor K.Sink out.old out.new pending.old pending.new
        (summary session_bytes console.now) result }
    ensures cause { FailsBySink K.Sink out.old out.new result }
{
    gather_pieces(
        out,
        pending,
        &[
            Text(b"session "),
            Decimal(session_bytes),
            Text(b" bytes\nconsole "),
            Decimal(console.count()),
            Text(b" bytes\nhash "),
            Word(console.hash()),
            Text(b"\n"),
        ],
    )
}
