// The lines of a step's events.
ghost use Rattle.byte_streams.specs.Sinks.{FailsBySink, GathersFor};
ghost use Rattle.show_run.specs.StepLog.Moments.{line};
ghost use Rattle.show_run.specs.StepLog.Events.{accept_text, dequeue_text, event_line, party, run_text, take_text};

use crate::step_log::moments::{Moment, gather_line};
use crate::step_log::parties::party_of;
use byte_streams::Piece::{Decimal, Text};
use byte_streams::{Output, Sink, SinkFault};
use kernel_lists::KernelEvent;
use program_answers::trace_log::EventWords;

impl EventWords for Moment {
    ghost use Rattle.std.specs.Prelude.{[], ◌∷◌};

    ghost numbers = { λ m. m.step ∷ m.tick ∷ m.task ∷ m.pc ∷ [] };

    ghost line = { λ m e. event_line m e };

    fn gather_event<K: Sink>(
        &self,
        e: KernelEvent,
        out: &mut K,
        pending: &mut Output,
    ) -> Result<(), SinkFault> {
        match e {
            KernelEvent::Accepted {
                queue,
                packet,
                sender,
            } => gather_accept(*self, queue, packet, sender, out, pending),
            KernelEvent::Taken {
                queue,
                packet,
                sender,
            } => gather_take(*self, queue, packet, sender, out, pending),
            KernelEvent::Dequeued { queue, packet } => {
                gather_dequeue(*self, queue, packet, out, pending)
            }
            KernelEvent::Runs { task } => gather_run(*self, task, out, pending),
        }
    }
}

fn gather_accept<K: Sink>(
    m: Moment,
    queue: i32,
    packet: u32,
    sender: i32,
    out: &mut K,
    pending: &mut Output,
) -> Result<(), SinkFault>
    ensures text { GathersFor K.Sink out.old out.new pending.old pending.new
        (line m (accept_text (party queue) packet (party sender))) result }
    ensures cause { FailsBySink K.Sink out.old out.new result }
{
    let from = party_of(sender);
    let to = party_of(queue);
    gather_line(
        m,
        &[
            Text(b"accept packet "),
            Decimal(u64::from(packet)),
            Text(b" from "),
            Text(from.words),
            from.number,
            Text(b" to "),
            Text(to.words),
            to.number,
        ],
        out,
        pending,
    )
}

fn gather_take<K: Sink>(
    m: Moment,
    queue: i32,
    packet: u32,
    sender: i32,
    out: &mut K,
    pending: &mut Output,
) -> Result<(), SinkFault>
    ensures text { GathersFor K.Sink out.old out.new pending.old pending.new
        (line m (take_text (party queue) packet (party sender))) result }
    ensures cause { FailsBySink K.Sink out.old out.new result }
{
    let taker = party_of(queue);
    let from = party_of(sender);
    gather_line(
        m,
        &[
            Text(b"take "),
            Text(taker.words),
            taker.number,
            Text(b" takes packet "),
            Decimal(u64::from(packet)),
            Text(b" of "),
            Text(from.words),
            from.number,
        ],
        out,
        pending,
    )
}

fn gather_dequeue<K: Sink>(
    m: Moment,
    queue: i32,
    packet: u32,
    out: &mut K,
    pending: &mut Output,
) -> Result<(), SinkFault>
    ensures text { GathersFor K.Sink out.old out.new pending.old pending.new
        (line m (dequeue_text (party queue) packet)) result }
    ensures cause { FailsBySink K.Sink out.old out.new result }
{
    let owner = party_of(queue);
    gather_line(
        m,
        &[
            Text(b"dequeue packet "),
            Decimal(u64::from(packet)),
            Text(b" leaves the queue of "),
            Text(owner.words),
            owner.number,
        ],
        out,
        pending,
    )
}

fn gather_run<K: Sink>(
    m: Moment,
    task: u32,
    out: &mut K,
    pending: &mut Output,
) -> Result<(), SinkFault>
    ensures text { GathersFor K.Sink out.old out.new pending.old pending.new
        (line m (run_text task)) result }
    ensures cause { FailsBySink K.Sink out.old out.new result }
{
    if task == 0 {
        return gather_line(m, &[Text(b"run nobody runs")], out, pending);
    }
    gather_line(
        m,
        &[Text(b"run task "), Decimal(u64::from(task)), Text(b" runs")],
        out,
        pending,
    )
}
