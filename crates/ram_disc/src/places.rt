// Where the streams of a disc are.
ghost use Rattle.std.specs.Prelude.{◌≡◌, ◌+◌, ◌<◌, ◌^◌, ◌==◌, ◌&&◌, ◌||◌, nat_le, not, Some, true, length, if◌then◌else◌, position, take};
ghost use Rattle.std.specs.List.{list_any};
ghost use Rattle.std.specs.Option.{is_none};
ghost use Rattle.ram_disc.specs.Disc.{most_streams, shell_stream};
ghost use Rattle.ram_disc.specs.Slots.{is_on_slot, place_in, writes_on};

/// The number of streams. The last one is the shell's, those before it are the file handler's.
pub(crate) const STREAMS: usize = 17;

const SHELL: usize = 16;

/// Where a stream is: the slot of its file, the position in it, the sector of that position, where it is in the
/// file, and whether the stream writes.
#[derive(Clone, Copy)]
pub(crate) struct Place {
    /// The slot of its file.
    pub(crate) slot: u8,
    /// How many bytes of the file come before it.
    pub(crate) position: u32,
    /// The sector of that position, where it is in the file.
    pub(crate) sector: u16,
    /// It writes, and does not read.
    pub(crate) writes: bool,
}

impl Place {
    /// The place so many bytes further on, which is in this sector.
    pub(crate) fn after(self, count: u32, sector: u16) -> Place
        requires { self.position + count < 2 ^ 32 }
        ensures { result ≡ record self { position = self.position + count; sector = sector } }
    {
        Place {
            slot: self.slot,
            position: self.position + count,
            sector,
            writes: self.writes,
        }
    }
}

/// Whether a stream is open on a slot.
pub(crate) fn is_open(streams: &[Option<Place>], slot: u8) -> bool
    ensures { result ≡ list_any (is_on_slot slot) streams.now }
{
    streams
        .iter()
        .any(|place| matches!(place, Some(place) if place.slot == slot))
}

/// Whether a stream writes a slot.
pub(crate) fn is_written(streams: &[Option<Place>], slot: u8) -> bool
    ensures { result ≡ list_any (writes_on slot) streams.now }
{
    streams.iter().any(|place| matches!(place, Some(place) if place.slot == slot && place.writes))
}

/// The stream that an opening takes, counted from 0: the shell's, or the lowest of the file handler's that is free.
pub(crate) fn stream_to_open(streams: &[Option<Place>], shell: bool) -> Option<usize>
    requires { length streams.now ≡ most_streams }
    ensures { result ≡ (if shell then Some 16 else position is_none (take 16 streams.now)) }
{
    if shell {
        Some(SHELL)
    } else {
        free_stream(streams)
    }
}

/// The lowest of the file handler's streams that is free, counted from 0.
pub(crate) fn free_stream(streams: &[Option<Place>]) -> Option<usize>
    requires { length streams.now ≡ most_streams }
    ensures { result ≡ position is_none (take 16 streams.now) }
{
    streams[..SHELL].iter().position(|place| place.is_none())
}

/// Where stream k is, from 1, where it is open.
pub(crate) fn place_at(streams: &[Option<Place>], k: u32) -> Option<Place>
    ensures { result ≡ place_in streams.now k }
{
    if k == 0 {
        return None;
    }
    *streams.get(k as usize - 1)?
}

/// A stream that writes an empty slot.
pub(crate) fn writer(slot: u8) -> Place
    ensures { result ≡ record { slot = slot; position = 0; sector = 0; writes = true } }
{
    Place {
        slot,
        position: 0,
        sector: 0,
        writes: true,
    }
}

/// Whether stream k, from 1, is one of the disc's and not open.
pub(crate) fn is_free(streams: &[Option<Place>], k: u32) -> bool
    ensures { result ≡ (nat_le 1 k && nat_le k most_streams && is_none (place_in streams.now k)) }
{
    1 <= k && k <= STREAMS as u32 && place_at(streams, k).is_none()
}

/// Whether stream k may be on a slot at this position, where the slot has so many bytes. A stream that writes is
/// at their end, and with no other on the slot.
pub(crate) fn may_be_placed(
    streams: &[Option<Place>],
    k: u32,
    slot: u8,
    position: u32,
    size: u32,
    writes: bool,
) -> bool
    ensures { result ≡ (nat_le position size && not (list_any (writes_on slot) streams.now)
        && (not writes || (not (k == shell_stream)
        && ((position == size) && not (list_any (is_on_slot slot) streams.now))))) }
{
    position <= size
        && !is_written(streams, slot)
        && (!writes || may_write(streams, k, slot, position == size))
}

// Whether stream k may write a slot, at the end of its bytes or not.
fn may_write(streams: &[Option<Place>], k: u32, slot: u8, at_end: bool) -> bool
    ensures { result ≡ (not (k == shell_stream)
        && (at_end && not (list_any (is_on_slot slot) streams.now))) }
{
    k != STREAMS as u32 && at_end && !is_open(streams, slot)
}
