// The words in which a log writes its events.
ghost use Rattle.std.specs.Prelude.{List, ℕ};
ghost use Rattle.byte_streams.specs.Pending.{Gathers};
ghost use Rattle.byte_streams.specs.Sinks.{FailsBySink, GathersFor};
ghost use Rattle.kernel_lists.specs.PacketQueue.EventLine.{line_of};
ghost use Rattle.kernel_lists.specs.declared.packet_queue.events.KernelEvent.{KernelEvent};

use crate::trace_log::lines::gather_line;
use byte_streams::{Output, Sink, SinkFault};
use kernel_lists::KernelEvent;

/// How events are written.
pub trait EventWords: Drop {
    /// The numbers that its lines tell besides those of the event. A log tells them with its events, so a caller knows after a call
    /// in which words the log was written.
    ghost numbers: { Self → List ℕ };

    /// The line of an event, ended by LF.
    ghost line: { Self → KernelEvent → List ℕ };

    /// Gathers the line of an event. `SinkFault` comes only where the sink's count of faults rose; then a prefix of what was pending,
    /// and of the line after it, has gone to the sink.
    fn gather_event<K: Sink>(
        &self,
        e: KernelEvent,
        out: &mut K,
        pending: &mut Output,
    ) -> Result<(), SinkFault>
        ensures text { GathersFor K.Sink out.old out.new pending.old pending.new
            (line self.now e) result }
        ensures cause { FailsBySink K.Sink out.old out.new result };
}

/// The words of a trace: `accept Q P S`, `take Q P S`, `dequeue Q P` or `run T`.
#[derive(Clone, Copy)]
pub struct TraceWords;

impl EventWords for TraceWords {
    ghost use Rattle.std.specs.Prelude.{[]};

    ghost numbers = { λ _. [] };

    ghost line = { λ _ e. line_of e };

    fn gather_event<K: Sink>(
        &self,
        e: KernelEvent,
        out: &mut K,
        pending: &mut Output,
    ) -> Result<(), SinkFault> {
        gather_line(e, out, pending)
    }
}
