// When and where a step is taken, with which each of its lines begins.
ghost use Rattle.std.specs.List.{flat_map};
ghost use Rattle.byte_streams.specs.Pending.{Gathers};
ghost use Rattle.byte_streams.specs.Pieces.{text_of};
ghost use Rattle.byte_streams.specs.Sinks.{FailsBySink, GathersFor};
ghost use Rattle.show_run.specs.StepLog.Moments.{line, prefix, start};

use byte_streams::Piece::{Decimal, Text};
use byte_streams::{Output, Piece, Sink, SinkFault, gather, gather_pieces};

/// The number of a step, and where the machine is before it.
#[derive(Clone, Copy)]
pub struct Moment {
    /// The number of the step; the first step is 1.
    pub step: u64,
    /// The tick, 0 on a machine without a kernel.
    pub tick: u32,
    /// The number of the task that runs, 0 where nobody runs.
    pub task: u32,
    /// The byte address of the next instruction.
    pub pc: u32,
}

/// Gathers a line of the step: its moment, and these pieces.
#[tactic(auto, unfolding(crate::specs::StepLog::Moments::line))]
pub(crate) fn gather_line<K: Sink>(
    m: Moment,
    what: &[Piece],
    out: &mut K,
    pending: &mut Output,
) -> Result<(), SinkFault>
    ensures text { GathersFor K.Sink out.old out.new pending.old pending.new
        (line m (flat_map text_of what.now)) result }
    ensures cause { FailsBySink K.Sink out.old out.new result }
{
    gather_start(m, what, out, pending)?;
    gather(out, pending, b"\n")
}

/// Gathers the start of a line of the step: its moment, and these pieces.
#[tactic(auto, unfolding(crate::specs::StepLog::Moments::start))]
pub(crate) fn gather_start<K: Sink>(
    m: Moment,
    what: &[Piece],
    out: &mut K,
    pending: &mut Output,
) -> Result<(), SinkFault>
    ensures text { GathersFor K.Sink out.old out.new pending.old pending.new
        (start m (flat_map text_of what.now)) result }
    ensures cause { FailsBySink K.Sink out.old out.new result }
{
    gather_prefix(m, out, pending)?;
    gather_pieces(out, pending, what)
}

#[tactic(auto, unfolding(crate::specs::StepLog::Moments::prefix))]
fn gather_prefix<K: Sink>(m: Moment, out: &mut K, pending: &mut Output) -> Result<(), SinkFault>
    ensures text { GathersFor K.Sink out.old out.new pending.old pending.new
        (prefix m) result }
    ensures cause { FailsBySink K.Sink out.old out.new result }
{
    gather_pieces(
        out,
        pending,
        &[
            Decimal(m.step),
            Text(b" "),
            Decimal(u64::from(m.tick)),
            Text(b" "),
            Decimal(u64::from(m.task)),
            Text(b" "),
            Decimal(u64::from(m.pc)),
            Text(b" "),
        ],
    )
}
