// The lines of events.
ghost use Rattle.byte_streams.specs.Sinks.{FailsBySink, GathersFor};
ghost use Rattle.kernel_lists.specs.PacketQueue.EventLine.{line_of, sender_line};

use byte_streams::{Output, Piece, Sink, SinkFault, gather_pieces};
use kernel_lists::KernelEvent;

/// The line of an event.
pub(crate) fn gather_line<K: Sink>(
    e: KernelEvent,
    out: &mut K,
    pending: &mut Output,
) -> Result<(), SinkFault>
    ensures text { GathersFor K.Sink out.old out.new pending.old pending.new
        (line_of e) result }
    ensures cause { FailsBySink K.Sink out.old out.new result }
{
    match e {
        KernelEvent::Accepted {
            queue,
            packet,
            sender,
        } => gather_with_sender(b"accept", queue, packet, sender, out, pending),
        KernelEvent::Taken {
            queue,
            packet,
            sender,
        } => gather_with_sender(b"take", queue, packet, sender, out, pending),
        KernelEvent::Dequeued { queue, packet } => gather_dequeued(queue, packet, out, pending),
        KernelEvent::Runs { task } => gather_runs(task, out, pending),
    }
}

fn gather_with_sender<K: Sink>(
    verb: &[u8],
    queue: i32,
    packet: u32,
    sender: i32,
    out: &mut K,
    pending: &mut Output,
) -> Result<(), SinkFault>
    ensures text { GathersFor K.Sink out.old out.new pending.old pending.new
        (sender_line verb.now queue packet sender) result }
    ensures cause { FailsBySink K.Sink out.old out.new result }
{
    gather_pieces(
        out,
        pending,
        &[
            Piece::Text(verb),
            Piece::Text(b" "),
            Piece::Signed(i64::from(queue)),
            Piece::Text(b" "),
            Piece::Decimal(u64::from(packet)),
            Piece::Text(b" "),
            Piece::Signed(i64::from(sender)),
            Piece::Text(b"\n"),
        ],
    )
}

fn gather_dequeued<K: Sink>(
    queue: i32,
    packet: u32,
    out: &mut K,
    pending: &mut Output,
) -> Result<(), SinkFault>
    ensures text { GathersFor K.Sink out.old out.new pending.old pending.new
        (line_of (KernelEvent.Dequeued queue packet)) result }
    ensures cause { FailsBySink K.Sink out.old out.new result }
{
    gather_pieces(
        out,
        pending,
        &[
            Piece::Text(b"dequeue "),
            Piece::Signed(i64::from(queue)),
            Piece::Text(b" "),
            Piece::Decimal(u64::from(packet)),
            Piece::Text(b"\n"),
        ],
    )
}

fn gather_runs<K: Sink>(task: u32, out: &mut K, pending: &mut Output) -> Result<(), SinkFault>
    ensures text { GathersFor K.Sink out.old out.new pending.old pending.new
        (line_of (KernelEvent.Runs task)) result }
    ensures cause { FailsBySink K.Sink out.old out.new result }
{
    gather_pieces(
        out,
        pending,
        &[
            Piece::Text(b"run "),
            Piece::Decimal(u64::from(task)),
            Piece::Text(b"\n"),
        ],
    )
}
