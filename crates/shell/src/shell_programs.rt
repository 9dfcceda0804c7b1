// What the shell does with tasks, modules and its packet: it clears up, starts programs, and sends its packet.

mod clearing;
pub mod laws;
mod packet;
pub mod programs;

pub use clearing::clear_up;
pub use packet::{post_shell_packet, send_shell_packet};
pub use programs::{Priority, start_program};
