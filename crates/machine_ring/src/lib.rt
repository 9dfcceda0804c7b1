// The rounds of a ring: what its left machine writes to the console goes over the link, and is typed at its right machine.
#![tactic(auto)]

pub mod flights;
mod idle;
pub mod laws;
mod left;
mod links;
pub mod outcomes;
mod right;
pub mod ring_link;
pub mod rings;
mod runs;
mod start;
pub mod terms;

pub use outcomes::RingOutcome;
pub use ring_link::{RingInput, read_ring};
pub use rings::Ring;
