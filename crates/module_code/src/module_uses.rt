// Which globals a module uses, and how.
ghost use Rattle.std.specs.List.{AllByRecursion};
ghost use Rattle.module_text.specs.Canonical.{IsPrintableHunk};

use crate::flow::find_code;
use crate::global_uses::{Use, use_of};
use crate::hunk_code::HunkCode;
use crate::units::FIRST;
use instruction_set::instruction_table::Effect;
use module_text::Hunk;
use std::alloc::{AllocError, Global};
use std::collections::BTreeSet;

/// The globals that a module uses.
#[derive(Drop)]
pub struct ModuleUses {
    /// Those that its tables set.
    pub sets: BTreeSet<u32>,
    /// Those that it calls.
    pub calls: BTreeSet<u32>,
    /// Those that it reads.
    pub reads: BTreeSet<u32>,
    /// Those that it writes.
    pub writes: BTreeSet<u32>,
    /// Those of which it takes the address, by which it may read and write them.
    pub addresses: BTreeSet<u32>,
}

impl ModuleUses {
    /// No globals.
    pub fn new(alloc: Global) -> ModuleUses {
        ModuleUses {
            sets: BTreeSet::new(alloc),
            calls: BTreeSet::new(alloc),
            reads: BTreeSet::new(alloc),
            writes: BTreeSet::new(alloc),
            addresses: BTreeSet::new(alloc),
        }
    }

    /// Whether it uses none.
    pub fn is_empty(&self) -> bool {
        self.sets.is_empty()
            && self.calls.is_empty()
            && self.reads.is_empty()
            && self.writes.is_empty()
            && self.addresses.is_empty()
    }

    /// Whether it may give a global a value.
    pub fn gives(&self, n: u32) -> bool {
        self.sets.contains(&n) || self.writes.contains(&n) || self.addresses.contains(&n)
    }

    // A global is used.
    fn note(&mut self, how: Use, n: u32) -> Result<(), AllocError> {
        match how {
            Use::Calls => self.calls.insert(n)?,
            Use::Reads => self.reads.insert(n)?,
            Use::Writes => self.writes.insert(n)?,
            Use::Addresses => self.addresses.insert(n)?,
        };
        Ok(())
    }

    // The globals that a hunk uses.
    fn note_hunk(&mut self, alloc: Global, hunk: &Hunk) -> Result<(), AllocError>
        requires { IsPrintableHunk hunk.now }
    {
        let code = find_code(alloc, hunk)?;
        for pair in code.table.pairs.as_slice() {
            if pair.sets() {
                self.sets.insert(pair.number)?;
            }
        }
        for at in FIRST..code.end() {
            if let Some((how, n)) = use_at(&code, at) {
                self.note(how, n)?;
            }
        }
        Ok(())
    }
}

/// The globals that the hunks of a module use.
pub fn uses_of(alloc: Global, hunks: &[Hunk]) -> Result<ModuleUses, AllocError>
    requires { AllByRecursion IsPrintableHunk hunks.now }
{
    let mut uses = ModuleUses::new(alloc);
    for hunk in hunks {
        uses.note_hunk(alloc, hunk)?;
    }
    Ok(uses)
}

// The use of a global at an offset.
fn use_at(code: &HunkCode, at: u32) -> Option<(Use, u32)> {
    let known = code.code_at(at)?;
    let how = use_of(known.row.effect)?;
    let is_called = matches!(known.row.effect, Effect::LoadG)
        && calls_what_is_loaded(code, at.saturating_add(known.instr.length));
    let how = if is_called { Use::Calls } else { how };
    Some((how, known.instr.operand))
}

// Whether the instruction here calls what the one before it has loaded.
fn calls_what_is_loaded(code: &HunkCode, at: u32) -> bool {
    match code.code_at(at) {
        Some(known) => matches!(known.row.effect, Effect::Call),
        None => false,
    }
}
