// Why a session is not made.
ghost use Rattle.std.specs.Prelude.{◌≡◌};
ghost use Rattle.session_making.specs.declared.ends.Hindered.TheVariants.{WantMemory};

use crate::wrongs::Wrong;
use std::alloc::{AllocError, AllocFailed};

/// Why a session is not made.
#[derive(Drop)]
pub enum Hindered<'a> {
    /// Something is wrong in the request.
    Refused(Wrong<'a>),
    /// Memory could not be had.
    WantMemory,
}

impl<'a, T: Drop> From<AllocFailed<T>> for Hindered<'a> {
    ghost from_gives = { λ _ e. e ≡ WantMemory };

    fn from(_: AllocFailed<T>) -> Hindered<'a> {
        Hindered::WantMemory
    }
}

impl<'a> From<AllocError> for Hindered<'a> {
    ghost from_gives = { λ _ e. e ≡ WantMemory };

    fn from(_: AllocError) -> Hindered<'a> {
        Hindered::WantMemory
    }
}
