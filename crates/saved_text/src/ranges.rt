// The ranges of the numbers and names of a saved machine.
ghost use Rattle.std.specs.Prelude.{◌≡◌, ◌+◌, ◌^◌, if◌then◌else◌, Some, None, nat_lt};
ghost use Rattle.kernel_model.specs.KernelRecord.Ranges.{is_period, is_store_size};
ghost use Rattle.session_text.specs.Ranges.{is_step};
ghost use Rattle.saved_text.specs.ImageOfText.{flag_of};
ghost use Rattle.saved_text.specs.Ranges.{are_pipe_numbers, are_stream_numbers, is_flag, mode_of, stream_of};
ghost use Rattle.saved_text.specs.declared.images.Mode.TheVariants.{Waiting};
ghost use Rattle.ram_disc.specs.Name.{is_name};

use crate::saved_lines::is_word;
use crate::{Mode, SavedStream};
use ram_disc::Name;

/// Whether a store may have so many words.
pub fn is_store_size(version: u32, words: u64) -> bool
    ensures { result ≡ is_store_size version words }
{
    let most = if version == 1 { 262_144 } else { 4_194_304 };
    1024 <= words && words <= most && words % 2 == 0
}

/// Whether so many steps may lie between two ticks of the clock.
pub fn is_period(steps: u64) -> bool
    ensures { result ≡ is_period steps }
{
    1 <= steps && steps <= 1_000_000
}

/// Whether a machine may take so many steps.
pub fn is_step(n: u64) -> bool
    ensures { result ≡ is_step n }
{
    n <= 4_000_000_000
}

/// Whether a machine that has taken so many steps may take so many more.
pub fn may_take(taken: u64, more: u64) -> bool
    ensures { result ≡ is_step (taken + more) }
{
    match taken.checked_add(more) {
        Some(n) => is_step(n),
        None => false,
    }
}

/// Whether the number is 0 or 1.
pub fn is_flag(n: u64) -> bool
    ensures { result ≡ is_flag n }
{
    n <= 1
}

/// What the flag says; `None` exactly where it is none.
pub fn flag_of(n: u64) -> Option<bool>
    ensures { result ≡ flag_of n }
{
    match n {
        0 => Some(false),
        1 => Some(true),
        _ => None,
    }
}

/// The mode of this number, with the number of the task that is waited for, which else is 0; `None` exactly where there is
/// no such mode.
pub fn mode_of(m: u64, x: u64) -> Option<Mode>
    ensures { result ≡ mode_of m x }
{
    if m == 2 {
        return waiting_for(x);
    }
    if x != 0 {
        return None;
    }
    match m {
        0 => Some(Mode::Prompt),
        1 => Some(Mode::Reading),
        3 => Some(Mode::Typing),
        _ => None,
    }
}

fn waiting_for(x: u64) -> Option<Mode>
    ensures { result ≡ (if nat_lt x (2 ^ 32) then Some (Waiting x) else None) }
{
    if !is_word(x) {
        return None;
    }
    Some(Mode::Waiting(x as u32))
}

/// The name of these bytes; `None` exactly where they are no name.
pub fn name_of(bytes: &[u8]) -> Option<Name>
    ensures { result ≡ (if is_name bytes.now then Some bytes.now else None) }
{
    Name::read(bytes)
}

/// The stream that these are; `None` exactly where one of them is out of its range.
pub fn stream_of(k: u64, m: u64, position: u64, name: &[u8]) -> Option<SavedStream>
    ensures { result ≡ stream_of k m position name.now }
{
    if !are_stream_numbers(k, m, position) {
        return None;
    }
    let name = name_of(name)?;
    Some(SavedStream {
        k: k as u32,
        writes: m == 1,
        position: position as u32,
        name,
    })
}

/// Whether the numbers of a stream are in their ranges.
pub fn are_stream_numbers(k: u64, m: u64, position: u64) -> bool
    ensures { result ≡ are_stream_numbers k m position }
{
    1 <= k && k <= 17 && is_flag(m) && is_word(position)
}

/// Whether the numbers of a pipe are in their ranges.
pub fn are_pipe_numbers(k: u64, r: u64, w: u64, e: u64) -> bool
    ensures { result ≡ are_pipe_numbers k r w e }
{
    1 <= k && k <= 8 && is_flag(r) && is_flag(w) && is_flag(e)
}
