// The file handler: requests for files on a disc.

mod calls;
mod files;
pub mod laws;
mod pieces;
mod streams;
pub mod turns;

pub use turns::file_turn;
