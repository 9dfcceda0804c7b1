// Whether what the residents of a saved machine keep is as the lists of its store have it.
ghost use Rattle.std.specs.Prelude.{◌≡◌, ◌≢◌, ◌==◌, ◌↔◌, ◌≤◌, IsTrue, false, true};
ghost use Rattle.std.specs.List.{list_any};
ghost use Rattle.kernel_model.specs.KernelRecord.Between.{AreShut, IsAwaited, IsValidShell, is_typing};
ghost use Rattle.kernel_model.specs.KernelRecord.HoldsLists.{HoldsLists};
ghost use Rattle.kernel_model.specs.KernelRecord.Kernel.{no_command};
ghost use Rattle.kernel_model.specs.KernelRecord.Pipes.{no_pipes};
ghost use Rattle.kernel_model.specs.KernelRecord.Recovered.{lists_in};
ghost use Rattle.kernel_model.specs.KernelRecord.Versions.{highest_id_of};
ghost use Rattle.saved_text.specs.ImageForm.{AreEntries};
ghost use Rattle.saved_machine.specs.MachineImage.Parts.{disc_with, mode_of, placed_pipes, shell_of};
ghost use Rattle.saved_machine.specs.MachineImage.Private.Rules.{ResidentsKeep, lists_of};

use crate::machine_image::store_rules::version_of;
use kernel_check::{has_residents, highest_of, is_valid_console};
use kernel_lists::FIRST_GUEST;
use kernel_model::numbers::{MOST_AHEAD, MOST_LINE};
use ram_disc::codes::SHELL_STREAM;
use saved_text::{Image, Mode, SavedStream};
use word_store::Store;

/// Whether the console's line, the shell, open streams, pipes and what is typed ahead are as the lists have it.
pub(crate) fn residents_keep(image: &Image) -> bool
    requires lists { HoldsLists image.now.store (lists_of image.now) }
    requires entries { AreEntries image.now }
    ensures { IsTrue result ↔ ResidentsKeep image.now }
{
    if !is_valid_console(&image.store, image.line.as_slice(), image.finished) {
        return false;
    }
    if !is_valid_shell(image) {
        return false;
    }
    if !streams_may_be(image) {
        return false;
    }
    if !pipes_may_be(image) {
        return false;
    }
    image.ring.as_slice().len() <= MOST_AHEAD
}

// Whether the shell is as the lists and its stream have it.
fn is_valid_shell(image: &Image) -> bool
    ensures { IsTrue result ↔ IsValidShell (lists_of image.now) (shell_of image.now)
        (disc_with image.now.files image.now.streams) }
{
    if types(image.streams.as_slice()) != is_typing(image.mode) {
        return false;
    }
    if !is_awaited(&image.store, image.mode) {
        return false;
    }
    if image.command.as_slice().len() > MOST_LINE {
        return false;
    }
    if has_residents(&image.store) {
        return true;
    }
    is_idle(image)
}

// Whether the shell's stream is open.
fn types(streams: &[SavedStream]) -> bool
    ensures { result ≡ list_any (λ s. s.k == SHELL_STREAM) streams.now }
{
    streams.iter().any(|stream| stream.k == SHELL_STREAM)
}

// Whether the shell types a file.
fn is_typing(mode: Mode) -> bool
    ensures { result ≡ is_typing (mode_of mode) }
{
    matches!(mode, Mode::Typing)
}

// Whether a task for which the shell waits has the number of a guest.
fn is_awaited(store: &Store, mode: Mode) -> bool
    ensures { IsTrue result
        ↔ IsAwaited (highest_id_of (lists_in store.now).version) (mode_of mode) }
{
    match mode {
        Mode::Waiting(id) => is_guest(store, id),
        Mode::Prompt | Mode::Reading | Mode::Typing => true,
    }
}

// Whether it is the number of a guest.
fn is_guest(store: &Store, id: u32) -> bool
    ensures { IsTrue result
        ↔ ((FIRST_GUEST ≤ id) × (id ≤ highest_id_of (lists_in store.now).version)) }
{
    FIRST_GUEST <= id && id <= highest_of(store)
}

// Whether the shell has done nothing.
fn is_idle(image: &Image) -> bool
    ensures { IsTrue result ↔ (shell_of image.now ≡ no_command) }
{
    matches!(image.mode, Mode::Prompt) && image.command.as_slice().is_empty()
}

// Whether residents are there, or no stream is open.
fn streams_may_be(image: &Image) -> bool
    requires { AreEntries image.now }
    ensures { IsTrue result ↔ ((lists_of image.now).residents ≡ false
        → AreShut (disc_with image.now.files image.now.streams).streams) }
{
    if has_residents(&image.store) {
        return true;
    }
    image.streams.as_slice().is_empty()
}

// Whether residents are there, which know of pipes, or there is no pipe.
fn pipes_may_be(image: &Image) -> bool
    requires { AreEntries image.now }
    ensures { IsTrue result ↔
        (((lists_of image.now).residents ≡ false → placed_pipes image.now.pipes ≡ no_pipes)
        × ((lists_of image.now).version ≡ 1 → placed_pipes image.now.pipes ≡ no_pipes)) }
{
    if image.pipes.as_slice().is_empty() {
        return true;
    }
    knows_pipes(&image.store)
}

// Whether there are residents, and the version is not 1.
fn knows_pipes(store: &Store) -> bool
    ensures { IsTrue result ↔ (((lists_in store.now).residents ≡ true)
        × ((lists_in store.now).version ≢ 1)) }
{
    has_residents(store) && version_of(store) != 1
}
