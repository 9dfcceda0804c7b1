// The queues of the devices and of the console in words.
ghost use Rattle.std.specs.Prelude.{◌≡◌};
ghost use Rattle.byte_streams.specs.Pending.{Gathers};
ghost use Rattle.byte_streams.specs.Sinks.{FailsBySink, GathersFor};
ghost use Rattle.kernel_model.specs.KernelRecord.Between.{is_empty_queue};
ghost use Rattle.kernel_model.specs.KernelRecord.KernelRanges.{CanWalkLists};
ghost use Rattle.kernel_model.specs.KernelRecord.Recovered.{lists_in, packets_at, pending_in};
ghost use Rattle.kernel_lists.specs.PacketQueue.Queue.{HasQueue};
ghost use Rattle.state_text.specs.PacketTexts.{packet_lines, queues_text};
ghost use Rattle.state_text.specs.declared.places.Place.TheVariants.{Console};

use crate::packets::gather_packets;
use crate::places::Place;
use byte_streams::{Output, Sink, SinkFault, gather};
use kernel_lists::{RootField, packets, root};
use kernel_model::numbers::PENDING_HEAD;
use word_store::Store;

/// Gathers a line for each packet that is at a device, or that the console has taken.
#[tactic(auto, unfolding(crate::specs::PacketTexts::queues_text))]
pub(crate) fn gather_queues<K: Sink>(
    store: &Store,
    out: &mut K,
    pending: &mut Output,
) -> Result<(), SinkFault>
    requires { CanWalkLists store.now }
    ensures text { GathersFor K.Sink out.old out.new pending.old pending.new
        (queues_text (lists_in store.now)) result }
    ensures cause { FailsBySink K.Sink out.old out.new result }
{
    let clock = RootField::ClockQueue.address();
    let keyboard = RootField::KeyQueue.address();
    let output = RootField::OutputQueue.address();
    gather(out, pending, b"queues\n")?;
    gather_packets(store, Place::Clock, clock, out, pending)?;
    gather_packets(store, Place::Keyboard, keyboard, out, pending)?;
    gather_packets(store, Place::Output, output, out, pending)?;
    gather_reads(store, out, pending)
}

// The reads that the console has taken; there is a console where there are residents.
fn gather_reads<K: Sink>(store: &Store, out: &mut K, pending: &mut Output) -> Result<(), SinkFault>
    requires { CanWalkLists store.now }
    ensures text { GathersFor K.Sink out.old out.new pending.old pending.new
        (packet_lines Console (pending_in store.now)) result }
    ensures cause { FailsBySink K.Sink out.old out.new result }
{
    if root(store, RootField::Residents) == 0 {
        return Ok(());
    }
    gather_packets(store, Place::Console, PENDING_HEAD, out, pending)
}

/// Whether no packet is on the queue at the head.
pub(crate) fn is_empty_queue(store: &Store, head: u32) -> bool
    requires { HasQueue store.now head }
    ensures { result ≡ is_empty_queue (packets_at store.now head) }
{
    packets(store, head).next().is_none()
}
