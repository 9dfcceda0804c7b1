// The places of pipes, and their handles.
ghost use Rattle.std.specs.Prelude.{◌≡◌, ◌<◌, ◌≤◌, ◌-◌, ◌&&◌, ◌||◌, None, Some, true, false, MatchOption, length, nat_le, not, position};
ghost use Rattle.std.specs.List.{list_any};
ghost use Rattle.std.specs.Option.{is_none, is_some};
ghost use Rattle.kernel_model.specs.KernelRecord.Pipes.{most_pipes};
ghost use Rattle.resident_tasks.specs.PipeHandler.Ends.{handle_at, is_end, is_named, place_for};
ghost use Rattle.resident_tasks.specs.PipeHandler.PipeCalls.{are_ends, can_restore, pipe_numbered};
ghost use Rattle.resident_tasks.specs.PipeHandler.Slots.{IsPlaceOf, pipe_in, pipes_in};

use crate::pipe_handler::slots::Slot;
use kernel_model::numbers::MOST_HELD;

/// The place of the pipe of this name, or else the lowest one that is free.
pub(crate) fn place_for(slots: &[Slot], name: &[u8]) -> Option<usize>
    ensures { result ≡ place_for (pipes_in slots.now) name.now }
{
    match place_named(slots, name) {
        Some(place) => Some(place),
        None => free_place(slots),
    }
}

// The place of the pipe of this name.
fn place_named(slots: &[Slot], name: &[u8]) -> Option<usize>
    ensures { result ≡ position (λ s. is_named name.now (pipe_in s)) slots.now }
{
    slots.iter().position(|slot| slot.is_named(name))
}

// The lowest place with no pipe.
fn free_place(slots: &[Slot]) -> Option<usize>
    ensures { result ≡ position (λ s. not (is_some (pipe_in s))) slots.now }
{
    slots.iter().position(|slot| !slot.is_there())
}

/// The place of the pipe of which a handle names the end that is given, where that is open.
pub(crate) fn open_place(slots: &[Slot], handle: u32, writes: bool) -> Option<usize>
    ensures { MatchOption result
        (is_end (pipes_in slots.now) handle writes ≡ false)
        (λ place. IsPlaceOf slots.now handle writes place) }
{
    if handle == 0 {
        return None;
    }
    if (handle % 2 == 0) != writes {
        return None;
    }
    let place = (handle as usize - 1) / 2;
    if !slots.get(place)?.is_open(writes) {
        return None;
    }
    Some(place)
}

/// The handle of an end of the pipe at a place.
pub(crate) fn handle_at(place: usize, writes: bool) -> u32
    requires { place < most_pipes }
    ensures { result ≡ handle_at place writes }
{
    let handle = 2 * place as u32 + 1;
    if writes { handle + 1 } else { handle }
}

/// Whether these may become pipe k: its ends, its name and its bytes.
pub(crate) fn can_restore(
    slots: &[Slot],
    k: u32,
    ends: (bool, bool, bool),
    name: &[u8],
    bytes: &[u8],
) -> bool
    requires { length slots.now ≡ most_pipes }
    ensures { result ≡ can_restore (pipes_in slots.now) k ends name.now bytes.now }
{
    if !is_free(slots, k) {
        return false;
    }
    if is_taken(slots, name) {
        return false;
    }
    if !are_ends(ends) {
        return false;
    }
    bytes.len() <= MOST_HELD
}

// Whether pipe k, from 1, is one of the eight and not there.
fn is_free(slots: &[Slot], k: u32) -> bool
    requires { length slots.now ≡ most_pipes }
    ensures { result ≡ (nat_le 1 k && nat_le k most_pipes
        && is_none (pipe_numbered (pipes_in slots.now) k)) }
{
    if k == 0 {
        return false;
    }
    match slots.get(k as usize - 1) {
        Some(slot) => !slot.is_there(),
        None => false,
    }
}

// Whether some pipe has this name.
fn is_taken(slots: &[Slot], name: &[u8]) -> bool
    ensures { result ≡ list_any (λ s. is_named name.now (pipe_in s)) slots.now }
{
    slots.iter().any(|slot| slot.is_named(name))
}

// Whether a pipe may have these ends.
fn are_ends(ends: (bool, bool, bool)) -> bool
    ensures { result ≡ are_ends ends }
{
    (ends.0 || ends.1) && (!ends.1 || ends.2)
}
