// A log that writes a line for each event.
ghost use Rattle.std.specs.Prelude.{◌≡◌, None, false};
ghost use Rattle.std.specs.Bool.{OnTrue};
ghost use Rattle.byte_streams.specs.Sinks.{FailsBySink, PrintsTo};
ghost use Rattle.kernel_lists.specs.PacketQueue.EventLine.{line_of, sender_line};
ghost use Rattle.kernel_lists.specs.PacketQueue.LineNote.{WritesLine, HasFailCause};
ghost use Rattle.kernel_lists.specs.PacketQueue.Log.{Notes};

use crate::packet_queue::{EventLog, KernelEvent};
use byte_streams::{Piece, Sink, SinkFault, write_pieces};

/// A log that writes a line for each event to a sink: `accept Q P S`, `take Q P S`, `dequeue Q P` or `run T`. It fails
/// where a write fails, and then writes no more.
#[derive(Drop)]
pub struct SinkLog<'a, K: Sink> {
    /// The sink.
    pub out: &'a mut K,
    /// Whether a write has failed.
    pub failed: bool,
}

impl<'a, K: Sink> SinkLog<'a, K> {
    /// A log that has written nothing yet.
    pub fn new(out: &'a mut K) -> SinkLog<'a, K>
        ensures same_reference { result.out.ghost_name ≡ out.entry.ghost_name }
        ensures nothing_written { result.out.now ≡ out.old }
        ensures works { result.failed ≡ false }
    {
        SinkLog { out, failed: false }
    }
}

impl<K: Sink> EventLog for SinkLog<'_, K> {
    ghost noted = { λ _. None };

    ghost has_failed = { λ log. log.failed };

    fn note(&mut self, e: KernelEvent)
        ensures notes { Notes None None self.old.failed self.new.failed e }
        ensures same_reference { self.new.out.ghost_name ≡ self.old.out.ghost_name }
        ensures line { WritesLine self.old.failed self.new.failed (K.holds self.old.out.now)
            (K.holds self.new.out.now) (line_of e) }
        ensures cause { HasFailCause self.old.failed self.new.failed (K.faults self.old.out.now)
            (K.faults self.new.out.now) }
        ensures silent { OnTrue self.old.failed (self.new.out.now ≡ self.old.out.now) }
    {
        if !self.failed {
            self.failed = write_line(&mut *self.out, e).is_err();
        }
    }

    fn failed(&self) -> bool {
        self.failed
    }
}

fn write_line<K: Sink>(out: &mut K, e: KernelEvent) -> Result<(), SinkFault>
    ensures text { PrintsTo K.Sink out.old out.new (line_of e) result }
    ensures cause { FailsBySink K.Sink out.old out.new result }
{
    match e {
        KernelEvent::Accepted {
            queue,
            packet,
            sender,
        } => write_with_sender(out, b"accept", queue, packet, sender),
        KernelEvent::Taken {
            queue,
            packet,
            sender,
        } => write_with_sender(out, b"take", queue, packet, sender),
        KernelEvent::Dequeued { queue, packet } => write_dequeued(out, queue, packet),
        KernelEvent::Runs { task } => write_runs(out, task),
    }
}

fn write_with_sender<K: Sink>(
    out: &mut K,
    verb: &[u8],
    queue: i32,
    packet: u32,
    sender: i32,
) -> Result<(), SinkFault>
    ensures text { PrintsTo K.Sink out.old out.new
        (sender_line verb.now queue packet sender) result }
    ensures cause { FailsBySink K.Sink out.old out.new result }
{
    write_pieces(
        out,
        &[
            Piece::Text(verb),
            Piece::Text(b" "),
            Piece::Signed(i64::from(queue)),
            Piece::Text(b" "),
            Piece::Decimal(u64::from(packet)),
            Piece::Text(b" "),
            Piece::Signed(i64::from(sender)),
            Piece::Text(b"\n"),
        ],
    )
}

fn write_dequeued<K: Sink>(out: &mut K, queue: i32, packet: u32) -> Result<(), SinkFault>
    ensures text { PrintsTo K.Sink out.old out.new
        (line_of (KernelEvent.Dequeued queue packet)) result }
    ensures cause { FailsBySink K.Sink out.old out.new result }
{
    write_pieces(
        out,
        &[
            Piece::Text(b"dequeue "),
            Piece::Signed(i64::from(queue)),
            Piece::Text(b" "),
            Piece::Decimal(u64::from(packet)),
            Piece::Text(b"\n"),
        ],
    )
}

fn write_runs<K: Sink>(out: &mut K, task: u32) -> Result<(), SinkFault>
    ensures text { PrintsTo K.Sink out.old out.new
        (line_of (KernelEvent.Runs task)) result }
    ensures cause { FailsBySink K.Sink out.old out.new result }
{
    write_pieces(
        out,
        &[
            Piece::Text(b"run "),
            Piece::Decimal(u64::from(task)),
            Piece::Text(b"\n"),
        ],
    )
}
