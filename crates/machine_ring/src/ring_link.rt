// A ring of two machines: what one writes to its console goes byte by byte over a link that loses, repeats and
// reorders, and is typed at the other.

mod heads;
pub mod inputs;
pub mod laws;
mod lines;
mod machines;
pub mod read;
pub mod receivers;
pub mod senders;

pub use inputs::RingInput;
pub use read::read_ring;
pub use receivers::Receiver;
pub use senders::Sender;
