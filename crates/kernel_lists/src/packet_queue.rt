// Queues of packets, linked through words of a store, and the events that the kernel notes.

pub mod due;
mod due_ticks;
pub mod events;
pub mod laws;
pub mod list_log;
pub mod logs;
pub mod packet_list;
mod places;
pub mod queue;
pub mod sink_log;
pub mod walk;

pub use due::append_due;
pub use due_ticks::DUE;
pub use events::KernelEvent;
pub use list_log::ListLog;
pub use logs::{EventLog, NoLog};
pub use packet_list::Packets;
pub use queue::{NO_QUEUE, append, remove, take};
pub use sink_log::SinkLog;
pub use walk::{PACKET_LINK, packets};
