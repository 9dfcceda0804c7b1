// A pipe, lent.
ghost use Rattle.std.specs.Prelude.{◌≡◌, slice_get};
ghost use Rattle.resident_tasks.specs.PipeHandler.Slots.{told};

use crate::pipe_handler::slots::Slot;
use ram_disc::Name;
use std::marker::Model;

/// A pipe that is there.
#[derive(Drop)]
pub struct PipeView<'a> {
    /// The slot of the pipe.
    slot: &'a Slot,
}

impl<'a> Model for PipeView<'a> {
    ghost use Rattle.kernel_model.specs.KernelRecord.Kernel.{Pipe};
    ghost use Rattle.resident_tasks.specs.PipeHandler.Slots.{told};

    ghost Value = { Pipe };

    ghost view = { λ v. told v.slot.now };
}

impl<'a> PipeView<'a> {
    pub(crate) fn new(slot: &'a Slot) -> PipeView<'a>
        ensures { result ≡ told slot.now }
    {
        PipeView { slot }
    }

    /// The name, lent.
    pub fn name(&self) -> &Name
        ensures { result.now ≡ self.now.name }
    {
        &self.slot.name
    }

    /// Whether the reading end is open, whether the writing end is, and whether that ever was.
    pub fn ends(&self) -> (bool, bool, bool)
        ensures { result ≡ (self.now.reading, self.now.writing, self.now.written) }
    {
        (self.slot.reading, self.slot.writing, self.slot.written)
    }

    /// Byte i, from 0, of those that it holds, or `None` exactly where it holds no more than i.
    pub fn at(&self, i: u32) -> Option<u8>
        ensures { result ≡ slice_get self.now.held i }
    {
        self.slot.held.get(i as usize).copied()
    }
}
