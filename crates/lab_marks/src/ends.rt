// Why nothing is made of a line.
ghost use Rattle.std.specs.Prelude.{◌≡◌};
ghost use Rattle.lab_marks.specs.declared.ends.Hindered.TheVariants.{Refused, WantMemory};

use crate::wrongs::Wrong;
use std::alloc::{AllocError, AllocFailed};

/// Why nothing is made of a line.
#[derive(Drop)]
pub enum Hindered<'a> {
    /// Something is wrong in it.
    Refused(Wrong<'a>),
    /// Memory could not be had.
    WantMemory,
}

impl<'a> From<Wrong<'a>> for Hindered<'a> {
    ghost from_gives = { λ wrong e. e ≡ Refused wrong };

    fn from(wrong: Wrong<'a>) -> Hindered<'a> {
        Hindered::Refused(wrong)
    }
}

impl<'a, T: Drop> From<AllocFailed<T>> for Hindered<'a> {
    ghost from_gives = { λ _ e. e ≡ WantMemory };

    fn from(_: AllocFailed<T>) -> Hindered<'a> {
        Hindered::WantMemory
    }
}

impl<'a> From<AllocError> for Hindered<'a> {
    ghost from_gives = { λ _ e. e ≡ WantMemory };

    fn from(_: AllocError) -> Hindered<'a> {
        Hindered::WantMemory
    }
}
