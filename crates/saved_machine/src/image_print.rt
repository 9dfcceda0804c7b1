// The text of a machine as it is, printed.
mod files;
mod heads;
mod keys;
pub mod laws;
mod numbers;
mod pipes;
pub mod print;
mod residents;
mod streams;
mod words;

pub use laws::{resumed_law, saved_law};
pub use print::print_image;
