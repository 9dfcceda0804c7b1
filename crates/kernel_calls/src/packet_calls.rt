// Packets: how one comes into a queue and goes out of it; the kernel calls by which they are sent, waited for and taken back; and
// how residents and devices return them.

mod dequeue;
pub mod destinations;
pub mod events;
mod own_packets;
pub mod packets;
pub mod queues;
mod replies;
pub mod returns;
mod send;
mod wait;

pub use dequeue::dqpkt;
pub use own_packets::send_own;
pub use queues::Queue;
pub use replies::reply;
pub use returns::{Device, return_first};
pub use send::qpkt;
pub use wait::taskwait;
