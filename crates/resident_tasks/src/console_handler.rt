// The console: a line is edited, reads wait for it, and bytes are written.
mod deliveries;
pub mod keys;
pub mod laws;
pub mod lines;
mod presses;
pub mod reads;
mod requests;
pub mod turns;

pub use lines::ConsoleState;
pub use requests::READ_LINE;
pub use turns::console_turn;
