// How a machine with a kernel begins.
pub mod laws;
mod start;

pub use laws::boot_events_law;
pub use start::boot;
