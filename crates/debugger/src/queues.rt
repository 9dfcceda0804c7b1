// The queues of a machine.
ghost use Rattle.std.specs.Prelude.{◌≡◌, None, List, Option};
ghost use Rattle.std.specs.Option.{option_map};
ghost use Rattle.byte_streams.specs.Pending.{Gathers};
ghost use Rattle.byte_streams.specs.Sinks.{FailsBySink, GathersFor};
ghost use Rattle.kernel_model.specs.KernelRecord.HoldsLists.{HoldsLists};
ghost use Rattle.kernel_model.specs.KernelRecord.Lists.{Lists};
ghost use Rattle.kernel_model.specs.KernelRecord.Recovered.{packet_in, packets_at};
ghost use Rattle.kernel_lists.specs.PacketQueue.Queue.{HasQueue};
ghost use Rattle.kernel_lists.specs.PacketQueue.QueueWords.{QueuedPacket};
ghost use Rattle.kernel_lists.specs.TaskBlock.TaskChain.{HasTasks, task_with, tasks_in};
ghost use Rattle.debugger.specs.Texts.{device_queue_text, packet_line, packet_lines, queue_text, task_queue_text};
ghost use Rattle.debugger.specs.Views.{Leads, device_queue};

use byte_streams::Piece::{Decimal, Signed, Text};
use byte_streams::{Output, Sink, SinkFault, gather, gather_pieces};
use kernel_calls::{Queue, head};
use kernel_lists::{find, packets};
use kernel_model::numbers::{KIND, SENDER};
use tripos_machine::Machine;
use word_store::{Store, signed, word_at};

/// Gathers the packets of the queue of the task with the number.
pub(crate) fn gather_task_queue<K: Sink>(
    machine: &Machine,
    id: u32,
    out: &mut K,
    pending: &mut Output,
) -> Result<(), SinkFault>
    ensures text { GathersFor K.Sink out.old out.new pending.old pending.new
        (task_queue_text id machine.now.state) result }
    ensures cause { FailsBySink K.Sink out.old out.new result }
{
    match machine.kernel_parts() {
        Some(parts) => {
            let queue = queue_of_task(&parts.store, id);
            gather_queue(&parts.store, queue, out, pending)
        }
        None => gather_none(out, pending),
    }
}

/// Gathers the packets of the queue of the device with the number, which is without its sign.
pub(crate) fn gather_device_queue<K: Sink>(
    machine: &Machine,
    number: u32,
    out: &mut K,
    pending: &mut Output,
) -> Result<(), SinkFault>
    ensures text { GathersFor K.Sink out.old out.new pending.old pending.new
        (device_queue_text number machine.now.state) result }
    ensures cause { FailsBySink K.Sink out.old out.new result }
{
    match machine.kernel_parts() {
        Some(parts) => {
            let queue = queue_of_device(&parts.store, number);
            gather_queue(&parts.store, queue, out, pending)
        }
        None => gather_none(out, pending),
    }
}

fn queue_of_task(store: &Store, id: u32) -> Option<Queue>
    requires { HasTasks store.now }
    ensures { result ≡ option_map Queue.Work (task_with store.now id (tasks_in store.now)) }
{
    find(store, id).map(Queue::Work)
}

fn queue_of_device(store: &Store, number: u32) -> Option<Queue>
    requires { (l : Lists) × HoldsLists store.now l }
    ensures { (l : Lists) → HoldsLists store.now l
        → Leads store.now result (device_queue number l) }
{
    match number {
        1 => Some(Queue::Clock),
        2 => Some(Queue::Keyboard),
        3 => Some(Queue::Output),
        _ => None,
    }
}

// There is no such queue.
fn gather_none<K: Sink>(out: &mut K, pending: &mut Output) -> Result<(), SinkFault>
    ensures text { GathersFor K.Sink out.old out.new pending.old pending.new
        (queue_text None) result }
    ensures cause { FailsBySink K.Sink out.old out.new result }
{
    gather(out, pending, b"? none\n")
}

fn gather_queue<K: Sink>(
    store: &Store,
    queue: Option<Queue>,
    out: &mut K,
    pending: &mut Output,
) -> Result<(), SinkFault>
    requires { (ps : Option (List QueuedPacket)) × Leads store.now queue ps }
    ensures text { (ps : Option (List QueuedPacket)) → Leads store.now queue ps
        → GathersFor K.Sink out.old out.new pending.old pending.new
        (queue_text ps) result }
    ensures cause { FailsBySink K.Sink out.old out.new result }
{
    match queue {
        Some(queue) => gather_packets(store, head(store, queue), out, pending),
        None => gather_none(out, pending),
    }
}

// The lines of the packets of the queue at the head.
fn gather_packets<K: Sink>(
    store: &Store,
    head: u32,
    out: &mut K,
    pending: &mut Output,
) -> Result<(), SinkFault>
    requires { HasQueue store.now head }
    ensures text { GathersFor K.Sink out.old out.new pending.old pending.new
        (packet_lines (packets_at store.now head)) result }
    ensures cause { FailsBySink K.Sink out.old out.new result }
{
    for p in packets(store, head) {
        gather_packet(store, p, out, pending)?;
    }
    Ok(())
}

// The line of the packet at p.
fn gather_packet<K: Sink>(
    store: &Store,
    p: u32,
    out: &mut K,
    pending: &mut Output,
) -> Result<(), SinkFault>
    ensures text { GathersFor K.Sink out.old out.new pending.old pending.new
        (packet_line (packet_in store.now p)) result }
    ensures cause { FailsBySink K.Sink out.old out.new result }
{
    let sender = word_at(store, p, SENDER);
    let kind = word_at(store, p, KIND);
    gather_pieces(
        out,
        pending,
        &[
            Decimal(u64::from(p)),
            Text(b" "),
            Signed(i64::from(signed(sender))),
            Text(b" "),
            Decimal(u64::from(kind)),
            Text(b"\n"),
        ],
    )
}
