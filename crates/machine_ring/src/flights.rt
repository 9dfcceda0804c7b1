// The packets that are in flight in one direction.
ghost use Rattle.std.specs.Prelude.{◌≡◌, ◌≤◌, drop, length, slice_get, take, ◌++◌};
ghost use Rattle.circular_buffer.specs.Buffer.{buffer};
ghost use Rattle.machine_ring.specs.Flights.{coming, staying, with_packet};

use circular_buffer::HeapCircularBuffer;

/// How many packets a direction holds.
pub const MOST_IN_FLIGHT: usize = 64;

/// A packet is sent. Where the direction is full it is lost.
pub(crate) fn send<P: Copy>(flight: &mut HeapCircularBuffer<P>, packet: P)
    requires room { flight.old.capacity ≡ MOST_IN_FLIGHT }
    requires fits { length flight.old.items ≤ MOST_IN_FLIGHT }
    ensures sent { flight.new ≡ buffer (with_packet packet flight.old.items) flight.old.capacity }
    ensures fits { length flight.new.items ≤ MOST_IN_FLIGHT }
{
    let _sent = flight.try_push_back(packet);
}

/// Lets a letter act on the packets. The answer is the one that comes.
pub(crate) fn act<P: Copy>(flight: &mut HeapCircularBuffer<P>, letter: u8) -> Option<P>
    requires { length flight.old.items ≤ flight.old.capacity }
    ensures comes { result ≡ coming letter flight.old.items }
    ensures stays { flight.new ≡ buffer (staying letter flight.old.items) flight.old.capacity }
    ensures fewer { length flight.new.items ≤ length flight.old.items }
{
    match letter {
        b'D' => flight.pop_front(),
        b'X' => {
            flight.pop_front();
            None
        }
        b'R' => turn_round(flight),
        b'O' => flight.pop_back(),
        _ => None,
    }
}

// The oldest packet goes to the back. The answer is this one.
fn turn_round<P: Copy>(flight: &mut HeapCircularBuffer<P>) -> Option<P>
    requires { length flight.old.items ≤ flight.old.capacity }
    ensures oldest { result ≡ slice_get flight.old.items 0 }
    ensures stays { flight.new ≡
        buffer (drop 1 flight.old.items ++ take 1 flight.old.items) flight.old.capacity }
    ensures fewer { length flight.new.items ≤ length flight.old.items }
{
    let packet = flight.pop_front()?;
    flight.push_back(packet);
    Some(packet)
}
