// The machine that was saved.
ghost use Rattle.std.specs.Prelude.{◌≡◌, IfOk, MatchOption, false, true};
ghost use Rattle.saved_text.specs.Canonical.{IsLawful};
ghost use Rattle.saved_machine.specs.MachineImage.Machines.{AreKept, HasMachine, IsResumed};

use crate::machine_image::discs::disc_of;
use crate::machine_image::parts::{KeptParts, made_parts, parts_of};
use crate::machine_image::pipes::pipes_of;
use crate::machine_image::resident_rules::residents_keep;
use crate::machine_image::store_rules::is_valid_store;
use bare_machine::BareParts;
use byte_streams::WantMemory;
use saved_text::Image;
use std::alloc::Global;
use tripos_machine::{Machine, Parts};

/// The machine that was saved, before the steps that it is to take: all its keys are still to come, and it has no output. `None`
/// comes exactly where there is no such machine: it has a kernel, and its store does not hold the words of valid lists, or its
/// other parts are not as these have it. `WantMemory` comes only where memory could not be had.
pub fn machine_of(alloc: Global, image: Image) -> Result<Option<Machine>, WantMemory>
    requires { IsLawful image }
    ensures { IfOk result (λ found. MatchOption found (HasMachine image → ⊥) (IsResumed image)) }
{
    if image.bare {
        return Ok(Some(bare_machine(image)));
    }
    full_machine(alloc, image)
}

// The machine without a kernel.
fn bare_machine(image: Image) -> Machine
    requires bare { image.bare ≡ true }
    requires lawful { IsLawful image }
    ensures { IsResumed image result }
{
    Machine::from_parts(Parts::Bare(BareParts {
        store: image.store,
        regs: image.regs,
        step: image.step,
    }))
}

// The machine with a kernel.
fn full_machine(alloc: Global, image: Image) -> Result<Option<Machine>, WantMemory>
    requires full { image.bare ≡ false }
    requires lawful { IsLawful image }
    ensures { IfOk result (λ found. MatchOption found (HasMachine image → ⊥) (IsResumed image)) }
{
    let Some(kept) = kept_parts(alloc, &image)? else {
        return Ok(None);
    };
    let made = made_parts(alloc, &image)?;
    let parts = parts_of(image, kept, made);
    Ok(Some(Machine::from_parts(Parts::Full(parts))))
}

// The disc and the pipes, or `None` exactly where there is no machine with a kernel.
fn kept_parts(alloc: Global, image: &Image) -> Result<Option<KeptParts>, WantMemory>
    requires full { image.now.bare ≡ false }
    requires lawful { IsLawful image.now }
    ensures { IfOk result (λ found.
        MatchOption found (HasMachine image.now → ⊥) (AreKept image.now)) }
{
    if !is_valid_store(alloc, image)? {
        return Ok(None);
    }
    if !residents_keep(image) {
        return Ok(None);
    }
    let Some(disc) = disc_of(alloc, image)? else {
        return Ok(None);
    };
    let Some(pipes) = pipes_of(alloc, image.pipes.as_slice())? else {
        return Ok(None);
    };
    Ok(Some(KeptParts { disc, pipes }))
}
