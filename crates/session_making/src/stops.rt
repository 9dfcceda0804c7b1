// What is wrong in a request, and where.
ghost use Rattle.std.specs.Prelude.{◌≡◌};
ghost use Rattle.session_making.specs.Stops.{stop_at};
ghost use Rattle.session_making.specs.declared.stops.Place.TheVariants.{Request as InRequest};
ghost use Rattle.session_making.specs.declared.stops.Stop.TheVariants.{WantMemory};

use crate::ends::Hindered;
use crate::wrongs::Wrong;
use std::alloc::AllocError;
use tool_texts::Lent;

/// Where in a request something is wrong.
#[derive(Drop)]
pub enum Place<'a> {
    /// In what is asked of the session as a whole, or in a program of a bare machine.
    Request,
    /// In the item of this number, from 1, which begins with these words; the second may be none.
    Item {
        number: usize,
        word: Lent<'a>,
        next: Lent<'a>,
    },
}

/// Something that is wrong, and where.
#[derive(Drop)]
pub struct Refusal<'a> {
    /// Where it is.
    pub place: Place<'a>,
    /// What is wrong.
    pub wrong: Wrong<'a>,
}

/// Why a text is not made.
#[derive(Drop)]
pub enum Stop<'a> {
    /// Something is wrong.
    Refused(Refusal<'a>),
    /// Memory could not be had.
    WantMemory,
}

impl<'a> From<AllocError> for Stop<'a> {
    ghost from_gives = { λ _ e. e ≡ WantMemory };

    fn from(_: AllocError) -> Stop<'a> {
        Stop::WantMemory
    }
}

/// Without a place, what is wrong is in the request as a whole.
impl<'a> From<Hindered<'a>> for Stop<'a> {
    ghost from_gives = { λ h e. e ≡ stop_at InRequest h };

    fn from(hindered: Hindered<'a>) -> Stop<'a> {
        stop_at(Place::Request, hindered)
    }
}

/// What is wrong at a place.
pub fn stop_at<'a>(place: Place<'a>, hindered: Hindered<'a>) -> Stop<'a>
    ensures { result ≡ stop_at place.entry hindered.entry }
{
    match hindered {
        Hindered::Refused(wrong) => Stop::Refused(Refusal { place, wrong }),
        Hindered::WantMemory => Stop::WantMemory,
    }
}
