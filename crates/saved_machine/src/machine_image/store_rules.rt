// Whether the store of a saved machine is that of a machine with a kernel.
ghost use Rattle.std.specs.Prelude.{◌≡◌, ◌↔◌, IfOk, IsTrue};
ghost use Rattle.kernel_model.specs.KernelRecord.HoldsLists.{HoldsLists};
ghost use Rattle.kernel_model.specs.KernelRecord.Recovered.{lists_in};
ghost use Rattle.saved_machine.specs.MachineImage.Private.Rules.{IsValidStore, lists_of};

use byte_streams::WantMemory;
use kernel_check::{
    are_valid_faults, are_valid_registers, are_valid_ticks, first_runs, holds_lists,
};
use kernel_lists::{RootField, root};
use saved_text::Image;
use std::alloc::Global;
use word_store::Store;

/// Whether the store holds the words of valid lists, and version, clock, registers and steps are as these have it. `WantMemory`
/// comes only where memory could not be had.
pub(crate) fn is_valid_store(alloc: Global, image: &Image) -> Result<bool, WantMemory>
    ensures { IfOk result (λ b. IsTrue b ↔ IsValidStore image.now) }
{
    if !holds_lists(alloc, &image.store)? {
        return Ok(false);
    }
    Ok(lists_tell(image))
}

// The same where the store holds the words of valid lists.
fn lists_tell(image: &Image) -> bool
    requires { HoldsLists image.now.store (lists_of image.now) }
    ensures { IsTrue result ↔ IsValidStore image.now }
{
    if !root_tells(image) {
        return false;
    }
    if !are_valid_ticks(&image.store, image.step) {
        return false;
    }
    if !first_runs(&image.store) {
        return false;
    }
    if !are_valid_registers(&image.store, &image.regs) {
        return false;
    }
    are_valid_faults(&image.store)
}

// Whether the root has the version and the period.
fn root_tells(image: &Image) -> bool
    ensures { IsTrue result ↔ (((lists_of image.now).version ≡ image.now.version)
        × ((lists_of image.now).period ≡ image.now.period)) }
{
    version_of(&image.store) == image.version && period_of(&image.store) == image.period
}

/// The version.
pub(crate) fn version_of(store: &Store) -> u32
    ensures { result ≡ (lists_in store.now).version }
{
    root(store, RootField::Version)
}

// The steps from one tick to the next.
fn period_of(store: &Store) -> u32
    ensures { result ≡ (lists_in store.now).period }
{
    root(store, RootField::Period)
}
