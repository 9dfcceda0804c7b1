// The task that reports faults: a fault is recorded, and a turn of the task reports those that were not reported yet.

pub mod laws;
mod packet;
pub mod records;
mod reports;
pub mod turns;

pub use records::record_fault;
pub use turns::fault_turn;
