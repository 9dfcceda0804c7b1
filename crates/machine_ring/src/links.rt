// The link between the two machines, with its two ends.
ghost use Rattle.std.specs.Prelude.{◌≡◌, ◌+◌, ◌<◌, ◌≤◌, ◌^◌, IfOk, IsTrue, length, nat_lt};
ghost use Rattle.circular_buffer.specs.Buffer.{buffer};
ghost use Rattle.machine_ring.specs.Flights.{coming, staying, with_any_packet};
ghost use Rattle.machine_ring.specs.Private.IdleRounds.{is_empty, later};
ghost use Rattle.machine_ring.specs.Links.{byte_taken, carried, carried_byte, carries_back, counts_after, is_new, letter_after, new_link, received_after, sender_after_answer};
ghost use Rattle.machine_ring.specs.RingLink.Heads.{is_round_count, is_wait};
ghost use Rattle.machine_ring.specs.RingLink.Senders.{sender_after_turn, sent_in_turn};

use crate::flights::{MOST_IN_FLIGHT, act, send};
use crate::ring_link::inputs::MOST_ROUNDS;
use crate::ring_link::{Receiver, Sender};
use crate::terms::Terms;
use byte_streams::WantMemory;
use circular_buffer::HeapCircularBuffer;
use std::alloc::Global;
use std::marker::Model;

/// The link. It is seen as what is set for it, and all that its two ends know and that is in flight.
pub(crate) struct LinkParts {
    /// What is set for the ring.
    pub(crate) terms: Terms,
    /// The end that sends.
    pub(crate) sender: Sender,
    /// How many bytes were acknowledged at it.
    pub(crate) acknowledged: u64,
    /// The data in flight, each byte after its number.
    pub(crate) packets: HeapCircularBuffer<(u64, u8)>,
    /// The end that receives.
    pub(crate) receiver: Receiver,
    /// The acknowledgements in flight.
    pub(crate) counts: HeapCircularBuffer<u64>,
    /// The rounds so far.
    pub(crate) rounds: u64,
}

// Written out, so that it is a call: where it is derived, the proof of each function that drops one goes through all its parts.
impl Drop for LinkParts {
    fn drop(self) {
        let LinkParts {
            terms: _,
            sender: _,
            acknowledged: _,
            packets: _,
            receiver: _,
            counts: _,
            rounds: _,
        } = self;
    }
}

impl Model for LinkParts {
    ghost use Rattle.machine_ring.specs.Links.{Link};
    ghost use Rattle.machine_ring.specs.LinkParts.{HasLink, link_of};

    ghost Value = { Link };

    ghost view = { link_of };

    ghost invariant = { HasLink };
}

/// What comes out of the link in a round.
#[derive(Clone, Copy)]
pub(crate) struct Carried {
    /// The byte that its other end takes.
    pub byte: Option<u8>,
    /// Whether the first byte that waits is acknowledged.
    pub acknowledged: bool,
}

impl LinkParts {
    /// The link before the first round. `WantMemory` comes only where memory could not be had.
    pub(crate) fn new(alloc: Global, terms: Terms) -> Result<LinkParts, WantMemory>
        requires rounds { IsTrue (is_round_count terms.rounds) }
        requires wait { IsTrue (is_wait terms.wait) }
        requires link { 0 < length terms.link }
        requires acks { 0 < length terms.acks }
        ensures { IfOk result (λ x. x ≡ new_link terms) }
    {
        let Ok(packets) = HeapCircularBuffer::with_capacity(alloc, MOST_IN_FLIGHT) else {
            return Err(WantMemory);
        };
        let Ok(counts) = HeapCircularBuffer::with_capacity(alloc, MOST_IN_FLIGHT) else {
            return Err(WantMemory);
        };
        Ok(LinkParts {
            terms,
            sender: Sender::new(),
            acknowledged: 0,
            packets,
            receiver: Receiver::new(),
            counts,
            rounds: 0,
        })
    }

    /// Whether another round may come.
    pub(crate) fn goes_on(&self) -> bool
        ensures more { result ≡ nat_lt self.now.rounds self.now.terms.rounds }
        ensures few { self.now.rounds ≤ self.now.terms.rounds }
    {
        self.rounds < self.terms.rounds
    }

    /// How many more rounds may come.
    pub(crate) fn rest(&self) -> u64
        ensures { result + self.now.rounds ≡ self.now.terms.rounds }
    {
        self.terms.rounds - self.rounds
    }

    /// Whether nothing is in flight.
    pub(crate) fn is_empty(&self) -> bool
        ensures { result ≡ is_empty self.now }
    {
        self.packets.is_empty() && self.counts.is_empty()
    }

    /// So many rounds more are over, in which nothing was on the link.
    pub(crate) fn pass(&mut self, n: u64)
        requires { self.old.rounds + n ≤ self.old.terms.rounds }
        ensures { self.new ≡ later n self.old }
    {
        self.rounds += n;
    }

    /// The rounds so far.
    pub(crate) fn rounds(&self) -> u64
        ensures { result ≡ self.now.rounds }
    {
        self.rounds
    }

    /// The most steps of the left machine.
    pub(crate) fn left_steps(&self) -> u64
        ensures { result ≡ self.now.terms.left_steps }
    {
        self.terms.left_steps
    }

    /// The most steps of the right machine.
    pub(crate) fn right_steps(&self) -> u64
        ensures { result ≡ self.now.terms.right_steps }
    {
        self.terms.right_steps
    }

    /// How many bytes the other end took.
    pub(crate) fn received(&self) -> u64
        ensures count { result ≡ self.now.received }
        ensures few { result ≤ MOST_ROUNDS }
    {
        self.receiver.count()
    }

    /// How many of them are acknowledged.
    pub(crate) fn acknowledged(&self) -> u64
        ensures { result ≡ self.now.sender.acknowledged }
    {
        self.acknowledged
    }

    /// A round of the link, with the first byte that waits, if one does, and with room for a byte at its other end or not.
    pub(crate) fn carry(&mut self, first: Option<u8>, room: bool) -> Carried
        requires { self.old.rounds < self.old.terms.rounds }
        ensures link { self.new ≡ carried first room self.old }
        ensures byte { result.byte ≡ carried_byte first room self.old }
        ensures acknowledged { result.acknowledged ≡ carries_back first room self.old }
    {
        let link = letter_after(self.rounds, self.terms.link.as_slice());
        let acks = letter_after(self.rounds, self.terms.acks.as_slice());
        take_turn(&mut self.sender, &mut self.packets, first, self.terms.wait);
        let byte = take_data(
            &mut self.receiver,
            &mut self.packets,
            &mut self.counts,
            link,
            room,
        );
        let count = act(&mut self.counts, acks);
        let acknowledged = take_answer(&mut self.sender, &mut self.acknowledged, count);
        self.rounds += 1;
        Carried { byte, acknowledged }
    }
}

// The letter of the round after so many.
fn letter_after(rounds: u64, letters: &[u8]) -> u8
    requires { 0 < length letters.now }
    ensures { result ≡ letter_after rounds letters.now }
{
    letters[(rounds % letters.len() as u64) as usize]
}

// The sender has a turn, with the first byte that waits.
fn take_turn(
    sender: &mut Sender,
    packets: &mut HeapCircularBuffer<(u64, u8)>,
    first: Option<u8>,
    wait: u32,
)
    requires timer { sender.old.timer < wait }
    requires room { packets.old.capacity ≡ MOST_IN_FLIGHT }
    requires fits { length packets.old.items ≤ MOST_IN_FLIGHT }
    ensures sender { sender.new ≡ sender_after_turn sender.old first wait }
    ensures packets { packets.new ≡ buffer
        (with_any_packet (sent_in_turn sender.old first wait) packets.old.items)
        packets.old.capacity }
    ensures timer { sender.new.timer < wait }
    ensures fits { length packets.new.items ≤ MOST_IN_FLIGHT }
{
    if let Some(packet) = sender.turn(first, wait) {
        send(packets, packet);
    }
}

// The letter of the link acts on the data in flight. The answer is the byte that is taken.
fn take_data(
    receiver: &mut Receiver,
    packets: &mut HeapCircularBuffer<(u64, u8)>,
    counts: &mut HeapCircularBuffer<u64>,
    letter: u8,
    room: bool,
) -> Option<u8>
    requires count { receiver.old + 1 < 2 ^ 64 }
    requires packets { length packets.old.items ≤ packets.old.capacity }
    requires counts { counts.old.capacity ≡ MOST_IN_FLIGHT }
    requires fits { length counts.old.items ≤ MOST_IN_FLIGHT }
    ensures byte { result ≡ byte_taken receiver.old room (coming letter packets.old.items) }
    ensures packets { packets.new ≡ buffer (staying letter packets.old.items) packets.old.capacity }
    ensures received { receiver.new ≡
        received_after receiver.old room (coming letter packets.old.items) }
    ensures counts { counts.new ≡ buffer
        (counts_after receiver.old room (coming letter packets.old.items) counts.old.items)
        counts.old.capacity }
    ensures few { receiver.new ≤ receiver.old + 1 }
    ensures packets_fit { length packets.new.items ≤ length packets.old.items }
    ensures counts_fit { length counts.new.items ≤ MOST_IN_FLIGHT }
{
    let (number, byte) = act(packets, letter)?;
    let taken = receiver.arrive(number, room);
    send(counts, receiver.count());
    if taken { Some(byte) } else { None }
}

// An acknowledgement comes, or none. The answer is whether it is a new one.
fn take_answer(sender: &mut Sender, acknowledged: &mut u64, count: Option<u64>) -> bool
    requires { acknowledged.old ≡ sender.old.acknowledged }
    ensures new { result ≡ is_new count sender.old }
    ensures sender { sender.new ≡ sender_after_answer count sender.old }
    ensures acknowledged { acknowledged.new ≡ sender.new.acknowledged }
    ensures timer { sender.new.timer ≡ sender.old.timer }
{
    let Some(count) = count else {
        return false;
    };
    if !sender.acknowledge(count) {
        return false;
    }
    *acknowledged = count;
    true
}
