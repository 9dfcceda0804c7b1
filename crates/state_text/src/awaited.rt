// The packets in words that a waiting task has sent, wherever they are queued.
ghost use Rattle.std.specs.Prelude.{◌≡◌, if◌then◌else◌, []};
ghost use Rattle.std.specs.List.{flat_map};
ghost use Rattle.byte_streams.specs.Pending.{Gathers};
ghost use Rattle.byte_streams.specs.Sinks.{FailsBySink, GathersFor};
ghost use Rattle.kernel_model.specs.KernelRecord.KernelRanges.{CanWalkLists, CanWalkTask};
ghost use Rattle.kernel_model.specs.KernelRecord.Recovered.{lists_in, packet_in, packets_at, pending_in, task_in};
ghost use Rattle.kernel_lists.specs.PacketQueue.Queue.{HasQueue};
ghost use Rattle.state_text.specs.AwaitedPackets.{alone_line, awaited_lines, is_from, its_line, its_lines, its_lines_at_task, its_number_line, its_packet_line, none_line};
ghost use Rattle.state_text.specs.declared.places.Place.TheVariants.{Console};

use crate::places::Place;
use crate::sent::has_packet;
use byte_streams::Piece::{Decimal, Text};
use byte_streams::{Output, Sink, SinkFault, gather, gather_pieces};
use kernel_lists::{DUE, RootField, TcbField, field, packets, root, tasks};
use kernel_model::numbers::{FILE_HANDLER, PENDING_HEAD, REPORTER, SENDER};
use word_store::{Store, word_at};

/// Gathers a line for each queued packet that the task with the number has sent, or that there is none.
#[tactic(auto, unfolding(crate::specs::AwaitedPackets::awaited_lines))]
pub(crate) fn gather_awaited<K: Sink>(
    store: &Store,
    id: u32,
    out: &mut K,
    pending: &mut Output,
) -> Result<(), SinkFault>
    requires { CanWalkLists store.now }
    ensures text { GathersFor K.Sink out.old out.new pending.old pending.new
        (awaited_lines id (lists_in store.now)) result }
    ensures cause { FailsBySink K.Sink out.old out.new result }
{
    let clock = RootField::ClockQueue.address();
    let keyboard = RootField::KeyQueue.address();
    let output = RootField::OutputQueue.address();
    gather_sent(store, id, Place::Clock, clock, out, pending)?;
    gather_sent(store, id, Place::Keyboard, keyboard, out, pending)?;
    gather_sent(store, id, Place::Output, output, out, pending)?;
    gather_sent_reads(store, id, out, pending)?;
    gather_sent_to_tasks(store, id, out, pending)?;
    gather_none(store, id, out, pending)
}

// That no packet of the task is queued, where that is so.
fn gather_none<K: Sink>(
    store: &Store,
    id: u32,
    out: &mut K,
    pending: &mut Output,
) -> Result<(), SinkFault>
    requires { CanWalkLists store.now }
    ensures text { GathersFor K.Sink out.old out.new pending.old pending.new
        (none_line id (lists_in store.now)) result }
    ensures cause { FailsBySink K.Sink out.old out.new result }
{
    if has_packet(store, id) {
        return Ok(());
    }
    gather(out, pending, alone_line(id))
}

// That a task waits of which no packet is queued: a resident that serves requests does so between them.
fn alone_line(id: u32) -> &'static [u8]
    ensures { result.now ≡ alone_line id }
{
    match id {
        REPORTER | FILE_HANDLER => b"  it waits for requests\n",
        _ => b"  no packet of it is on a queue\n",
    }
}

// Its packets among the reads that the console has taken; there is a console where there are residents.
fn gather_sent_reads<K: Sink>(
    store: &Store,
    id: u32,
    out: &mut K,
    pending: &mut Output,
) -> Result<(), SinkFault>
    requires { CanWalkLists store.now }
    ensures text { GathersFor K.Sink out.old out.new pending.old pending.new
        (its_lines id Console (pending_in store.now)) result }
    ensures cause { FailsBySink K.Sink out.old out.new result }
{
    if root(store, RootField::Residents) == 0 {
        return Ok(());
    }
    gather_sent(store, id, Place::Console, PENDING_HEAD, out, pending)
}

// Its packets on the queues of tasks, in the order of the chain.
fn gather_sent_to_tasks<K: Sink>(
    store: &Store,
    id: u32,
    out: &mut K,
    pending: &mut Output,
) -> Result<(), SinkFault>
    requires { CanWalkLists store.now }
    ensures text { GathersFor K.Sink out.old out.new pending.old pending.new
        (flat_map (its_lines_at_task id) (lists_in store.now).tasks) result }
    ensures cause { FailsBySink K.Sink out.old out.new result }
{
    for t in tasks(store) {
        gather_sent_to_task(store, id, t, out, pending)?;
    }
    Ok(())
}

// Its packets on the queue of the task at t.
fn gather_sent_to_task<K: Sink>(
    store: &Store,
    id: u32,
    t: u32,
    out: &mut K,
    pending: &mut Output,
) -> Result<(), SinkFault>
    requires { CanWalkTask store.now t }
    ensures text { GathersFor K.Sink out.old out.new pending.old pending.new
        (its_lines_at_task id (task_in store.now t)) result }
    ensures cause { FailsBySink K.Sink out.old out.new result }
{
    let place = Place::Task(field(store, t, TcbField::Id));
    let head = store.address_of(t, TcbField::Queue.index());
    gather_sent(store, id, place, head, out, pending)
}

// Its packets on the queue at the head, which is that of the place.
fn gather_sent<K: Sink>(
    store: &Store,
    id: u32,
    place: Place,
    head: u32,
    out: &mut K,
    pending: &mut Output,
) -> Result<(), SinkFault>
    requires { HasQueue store.now head }
    ensures text { GathersFor K.Sink out.old out.new pending.old pending.new
        (its_lines id place (packets_at store.now head)) result }
    ensures cause { FailsBySink K.Sink out.old out.new result }
{
    for p in packets(store, head) {
        gather_if_sent(store, id, place, p, out, pending)?;
    }
    Ok(())
}

// The line of the packet at p, if the task has sent it.
fn gather_if_sent<K: Sink>(
    store: &Store,
    id: u32,
    place: Place,
    p: u32,
    out: &mut K,
    pending: &mut Output,
) -> Result<(), SinkFault>
    ensures text { GathersFor K.Sink out.old out.new pending.old pending.new
        (if is_from id (packet_in store.now p)
        then its_packet_line place (packet_in store.now p) else []) result }
    ensures cause { FailsBySink K.Sink out.old out.new result }
{
    if word_at(store, p, SENDER) != id {
        return Ok(());
    }
    gather_its_packet(store, place, p, out, pending)
}

// The line of the packet at p, which is the task's.
fn gather_its_packet<K: Sink>(
    store: &Store,
    place: Place,
    p: u32,
    out: &mut K,
    pending: &mut Output,
) -> Result<(), SinkFault>
    ensures text { GathersFor K.Sink out.old out.new pending.old pending.new
        (its_packet_line place (packet_in store.now p)) result }
    ensures cause { FailsBySink K.Sink out.old out.new result }
{
    match place {
        Place::Clock => {
            let due = word_at(store, p, DUE);
            gather_number_line(p, b" is at the clock, due at tick ", due, out, pending)
        }
        Place::Keyboard => gather_its_line(p, b" is at the keyboard", out, pending),
        Place::Output => gather_its_line(p, b" is at the output", out, pending),
        Place::Console => gather_its_line(p, b" waits for a line at the console", out, pending),
        Place::Task(u) => gather_number_line(p, b" is on the queue of task ", u, out, pending),
    }
}

// A line on the packet at p.
fn gather_its_line<K: Sink>(
    p: u32,
    text: &[u8],
    out: &mut K,
    pending: &mut Output,
) -> Result<(), SinkFault>
    ensures text { GathersFor K.Sink out.old out.new pending.old pending.new
        (its_line p text.now) result }
    ensures cause { FailsBySink K.Sink out.old out.new result }
{
    gather_pieces(
        out,
        pending,
        &[
            Text(b"  its packet "),
            Decimal(u64::from(p)),
            Text(text),
            Text(b"\n"),
        ],
    )
}

// The same with a number behind.
fn gather_number_line<K: Sink>(
    p: u32,
    text: &[u8],
    n: u32,
    out: &mut K,
    pending: &mut Output,
) -> Result<(), SinkFault>
    ensures text { GathersFor K.Sink out.old out.new pending.old pending.new
        (its_number_line p text.now n) result }
    ensures cause { FailsBySink K.Sink out.old out.new result }
{
    gather_pieces(
        out,
        pending,
        &[
            Text(b"  its packet "),
            Decimal(u64::from(p)),
            Text(text),
            Decimal(u64::from(n)),
            Text(b"\n"),
        ],
    )
}
