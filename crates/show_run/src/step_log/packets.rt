// The words of the packets that a step's events accept.
ghost use Rattle.std.specs.Prelude.{◌≡◌, ◌++◌, ◌∷◌, [], take};
ghost use Rattle.byte_streams.specs.Pending.{Gathers};
ghost use Rattle.byte_streams.specs.Pieces.{text_of};
ghost use Rattle.byte_streams.specs.Sinks.{FailsBySink, GathersFor};
ghost use Rattle.show_run.specs.StepLog.Moments.{line};
ghost use Rattle.show_run.specs.StepLog.Packets.{accepted, packet_lines, packet_text, packet_word, told_lines};

use crate::step_log::moments::{Moment, gather_line};
use arrayvec::ArrayVec;
use byte_streams::Piece::{Decimal, Signed, Text};
use byte_streams::{Output, Piece, Sink, SinkFault};
use kernel_lists::KernelEvent;
use kernel_model::numbers::{FIRST, KIND, RES1, RES2};
use word_store::{Store, signed, word_at};

/// Of so many events of a step the packets are told.
pub const MOST_TOLD: usize = 64;

/// Keeps which packet the event accepts, if it accepts one, where there is room.
pub(crate) fn keep(told: &mut ArrayVec<Option<u32>, MOST_TOLD>, e: KernelEvent)
    ensures { told.new.items ≡ take MOST_TOLD (told.old.items ++ accepted e ∷ []) }
{
    if told.len() >= MOST_TOLD {
        return;
    }
    told.push(accepted(e));
}

// The packet that the event accepts.
fn accepted(e: KernelEvent) -> Option<u32>
    ensures { result ≡ accepted e }
{
    match e {
        KernelEvent::Accepted { packet, .. } => Some(packet),
        _ => None,
    }
}

/// Gathers a line for each of these packets, with what the store says of it.
pub(crate) fn gather_told<K: Sink>(
    m: Moment,
    told: &[Option<u32>],
    store: &Store,
    out: &mut K,
    pending: &mut Output,
) -> Result<(), SinkFault>
    ensures text { GathersFor K.Sink out.old out.new pending.old pending.new
        (told_lines m store.now told.now) result }
    ensures cause { FailsBySink K.Sink out.old out.new result }
{
    for packet in told {
        gather_packet(m, *packet, store, out, pending)?;
    }
    Ok(())
}

// The line of a packet; none where the event accepted none.
fn gather_packet<K: Sink>(
    m: Moment,
    packet: Option<u32>,
    store: &Store,
    out: &mut K,
    pending: &mut Output,
) -> Result<(), SinkFault>
    ensures text { GathersFor K.Sink out.old out.new pending.old pending.new
        (packet_lines m store.now packet) result }
    ensures cause { FailsBySink K.Sink out.old out.new result }
{
    match packet {
        Some(packet) => gather_words(m, packet, store, out, pending),
        None => Ok(()),
    }
}

// Its type, its results and its argument.
fn gather_words<K: Sink>(
    m: Moment,
    packet: u32,
    store: &Store,
    out: &mut K,
    pending: &mut Output,
) -> Result<(), SinkFault>
    ensures text { GathersFor K.Sink out.old out.new pending.old pending.new
        (line m (packet_text store.now packet)) result }
    ensures cause { FailsBySink K.Sink out.old out.new result }
{
    gather_line(
        m,
        &[
            Text(b"packet "),
            Decimal(u64::from(packet)),
            Text(b" type "),
            number(store, packet, KIND),
            Text(b", results "),
            number(store, packet, RES1),
            Text(b" and "),
            number(store, packet, RES2),
            Text(b", argument "),
            number(store, packet, FIRST),
        ],
        out,
        pending,
    )
}

// A word of it, as a signed number.
fn number(store: &Store, packet: u32, i: u32) -> Piece<'static>
    ensures { text_of result ≡ packet_word store.now packet i }
{
    Signed(i64::from(signed(word_at(store, packet, i))))
}
