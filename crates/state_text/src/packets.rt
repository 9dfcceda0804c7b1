// The packets of a queue in words.
ghost use Rattle.std.specs.Prelude.{◌≡◌};
ghost use Rattle.byte_streams.specs.Pending.{Gathers};
ghost use Rattle.byte_streams.specs.Sinks.{FailsBySink, GathersFor};
ghost use Rattle.kernel_model.specs.KernelRecord.Recovered.{packet_in, packets_at};
ghost use Rattle.kernel_lists.specs.PacketQueue.Queue.{HasQueue};
ghost use Rattle.state_text.specs.PacketTexts.{name_of, packet_end, packet_front, packet_line, packet_lines, queue_name};

use crate::places::Place;
use byte_streams::Piece::{Decimal, Text};
use byte_streams::{Output, Sink, SinkFault, gather, gather_pieces};
use kernel_lists::{DUE, packets};
use kernel_model::numbers::{CLOCK, KEYBOARD, KIND, OUTPUT, SENDER};
use word_store::{Store, word_at};

/// Gathers a line for each packet of the queue at the head, which is that of the place.
pub(crate) fn gather_packets<K: Sink>(
    store: &Store,
    place: Place,
    head: u32,
    out: &mut K,
    pending: &mut Output,
) -> Result<(), SinkFault>
    requires { HasQueue store.now head }
    ensures text { GathersFor K.Sink out.old out.new pending.old pending.new
        (packet_lines place (packets_at store.now head)) result }
    ensures cause { FailsBySink K.Sink out.old out.new result }
{
    for p in packets(store, head) {
        gather_packet(store, place, p, out, pending)?;
    }
    Ok(())
}

// The line of the packet at p.
fn gather_packet<K: Sink>(
    store: &Store,
    place: Place,
    p: u32,
    out: &mut K,
    pending: &mut Output,
) -> Result<(), SinkFault>
    ensures text { GathersFor K.Sink out.old out.new pending.old pending.new
        (packet_line place (packet_in store.now p)) result }
    ensures cause { FailsBySink K.Sink out.old out.new result }
{
    gather_front(store, place, p, out, pending)?;
    gather_name(word_at(store, p, SENDER), out, pending)?;
    gather_end(store, place, p, out, pending)
}

// The queue, and the address of the packet.
fn gather_front<K: Sink>(
    store: &Store,
    place: Place,
    p: u32,
    out: &mut K,
    pending: &mut Output,
) -> Result<(), SinkFault>
    ensures text { GathersFor K.Sink out.old out.new pending.old pending.new
        (packet_front place (packet_in store.now p)) result }
    ensures cause { FailsBySink K.Sink out.old out.new result }
{
    gather_pieces(
        out,
        pending,
        &[
            Text(queue_name(place)),
            Text(b": packet "),
            Decimal(u64::from(p)),
            Text(b" of "),
        ],
    )
}

fn queue_name(place: Place) -> &'static [u8]
    ensures { result.now ≡ queue_name place }
{
    match place {
        Place::Clock => b"the clock",
        Place::Keyboard => b"the keyboard",
        Place::Output => b"the output",
        Place::Console => b"the reads at the console",
        Place::Task(_) => b"  on its queue",
    }
}

// Who has the number.
fn gather_name<K: Sink>(id: u32, out: &mut K, pending: &mut Output) -> Result<(), SinkFault>
    ensures text { GathersFor K.Sink out.old out.new pending.old pending.new
        (name_of id) result }
    ensures cause { FailsBySink K.Sink out.old out.new result }
{
    match id {
        CLOCK => gather(out, pending, b"the clock"),
        KEYBOARD => gather(out, pending, b"the keyboard"),
        OUTPUT => gather(out, pending, b"the output"),
        _ => gather_pieces(out, pending, &[Text(b"task "), Decimal(u64::from(id))]),
    }
}

// The packet's type, and the tick at which it is due if it is at the clock.
fn gather_end<K: Sink>(
    store: &Store,
    place: Place,
    p: u32,
    out: &mut K,
    pending: &mut Output,
) -> Result<(), SinkFault>
    ensures text { GathersFor K.Sink out.old out.new pending.old pending.new
        (packet_end place (packet_in store.now p)) result }
    ensures cause { FailsBySink K.Sink out.old out.new result }
{
    let kind = u64::from(word_at(store, p, KIND));
    match place {
        Place::Clock => gather_pieces(
            out,
            pending,
            &[
                Text(b", type "),
                Decimal(kind),
                Text(b", due at tick "),
                Decimal(u64::from(word_at(store, p, DUE))),
                Text(b"\n"),
            ],
        ),
        Place::Keyboard | Place::Output | Place::Console | Place::Task(_) => gather_pieces(
            out,
            pending,
            &[Text(b", type "), Decimal(kind), Text(b"\n")],
        ),
    }
}
