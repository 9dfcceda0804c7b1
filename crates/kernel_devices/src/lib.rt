// The devices: the clock, which counts ticks and returns packets when they are due; the keyboard, with the bytes that are typed ahead;
// and the output.
#![tactic(auto)]

pub mod output;
pub mod ticks;
pub mod typed;

pub use output::finish_output;
pub use ticks::tick;
pub use typed::Tty;
