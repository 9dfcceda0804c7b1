// Dispatch: the first ready task runs.
pub mod choice;
mod idleness;
mod registers;
mod resumption;
mod saving;
pub mod turns;

pub use choice::choose;
pub use turns::switch;
