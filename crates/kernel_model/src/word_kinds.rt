// Which words are the kernel's.

pub mod byte_kinds;
pub mod keepers;
mod ownership;
pub mod questions;
pub mod search;
pub mod visits;
pub mod walk;

pub use byte_kinds::ByteKinds;
pub use keepers::KindKeeper;
pub use ownership::are_unowned;
pub use questions::{clear, packet_in};
pub use walk::Walk;
