// A ring of two machines before its first round.

use crate::left::LeftEnd;
use crate::links::LinkParts;
use std::marker::Model;
use tripos_machine::Machine;

/// A ring before its first round: nothing waits, and nothing is between its machines. The right one has not stopped. It is seen as
/// its two machines, and what is between them.
#[derive(Drop)]
pub struct Ring {
    /// The machine whose console bytes go over the link.
    pub(crate) left: LeftEnd,
    /// The link.
    pub(crate) link: LinkParts,
    /// The machine at which these bytes are typed.
    pub(crate) right: Machine,
}

impl Model for Ring {
    ghost use Rattle.machine_ring.specs.FirstRings.{IsFirst, ring_of};
    ghost use Rattle.machine_ring.specs.Rings.{Ring};

    ghost Value = { Ring };

    ghost view = { ring_of };

    ghost invariant = { IsFirst };
}
