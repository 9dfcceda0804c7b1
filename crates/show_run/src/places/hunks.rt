// Where the hunks of a map are loaded in a machine.
ghost use Rattle.std.specs.Prelude.{◌≡◌, ◌<◌, ◌+◌, ◌≤◌, ◌^◌, ◌++◌, length, IfOk, OnOk};
ghost use Rattle.kernel_model.specs.KernelRecord.HoldsLists.{HoldsLists};
ghost use Rattle.kernel_model.specs.KernelRecord.Lists.{Lists};
ghost use Rattle.show_run.specs.Places.Hunks.{hunks_in_block, hunks_in_blocks, loaded_hunks, machine_hunks};

use kernel_calls::use_of;
use kernel_lists::{Block, blocks};
use kernel_model::Use;
use program_places::loaded::{LoadedHunk, is_placed, placed_hunks, push_loaded};
use program_places::maps::{MappedHunk, ProgramMap};
use std::alloc::{AllocError, Global};
use tripos_machine::Machine;
use word_store::Store;

/// The hunks of the map that are loaded now, in rising order of their addresses: on a machine with a kernel each place in the block of a module
/// where the words of a hunk are, but for those that are relocated. On a bare machine they are where the map says.
pub fn find_hunks(
    alloc: Global,
    map: &ProgramMap,
    machine: &Machine,
) -> Result<Vec<LoadedHunk>, AllocError>
    ensures { IfOk result (λ v. v.items ≡ loaded_hunks map.now machine.now.state) }
{
    if is_placed(map) {
        return placed_hunks(alloc, map);
    }
    machine_hunks(alloc, map.hunks.as_slice(), machine)
}

// The hunks that are in the machine's blocks of modules.
fn machine_hunks(
    alloc: Global,
    hunks: &[MappedHunk],
    machine: &Machine,
) -> Result<Vec<LoadedHunk>, AllocError>
    ensures { IfOk result (λ v. v.items ≡ machine_hunks hunks.now machine.now.state) }
{
    match machine.kernel_parts() {
        Some(parts) => hunks_in(alloc, hunks, &parts.store),
        None => Ok(Vec::new(alloc)),
    }
}

// The hunks that are in blocks of modules.
fn hunks_in(
    alloc: Global,
    hunks: &[MappedHunk],
    store: &Store,
) -> Result<Vec<LoadedHunk>, AllocError>
    requires { (l : Lists) × HoldsLists store.now l }
    ensures { (l : Lists) → HoldsLists store.now l
        → IfOk result (λ v. v.items ≡ hunks_in_blocks hunks.now store.now l l.blocks) }
{
    let mut loaded = Vec::new(alloc);
    for block in blocks(store) {
        push_block(&mut loaded, hunks, store, block, use_of(store, block))?;
    }
    Ok(loaded)
}

// Adds the hunks that are in a block with this use.
fn push_block(
    loaded: &mut Vec<LoadedHunk>,
    hunks: &[MappedHunk],
    store: &Store,
    block: Block,
    used: Use,
) -> Result<(), AllocError>
    requires inside { block.start + block.size ≤ length store.now }
    requires low { length store.now < 2 ^ 32 }
    ensures { OnOk result (loaded.new.items
        ≡ loaded.old.items ++ hunks_in_block hunks.now store.now block used) }
{
    match (used, store.words(block.start, block.size)) {
        (Use::OfModule, Some(words)) => push_loaded(loaded, hunks, block.start, words),
        _ => Ok(()),
    }
}
