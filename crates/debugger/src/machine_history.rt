// The states that a machine of either kind can go back to: their words as differences, and all else of them as it was.

mod files;
pub mod histories;
pub mod laws;
mod moments;
mod returns;
mod steps;
mod turns;

pub use histories::History;
pub use laws::past_law;
