// The residents: how they take and answer requests, and the turns of the file handler, the reporter of faults and the console.
#![tactic(auto)]

pub mod console_handler;
pub mod fault_reporter;
pub mod file_handler;
pub mod pipe_handler;
pub mod resident_requests;

pub use fault_reporter::{fault_turn, record_fault};
pub use file_handler::file_turn;
pub use pipe_handler::{Pipes, pipe_turn};
pub use resident_requests::requests::UNKNOWN_TYPE;
pub use resident_requests::{Request, finish_turn, first_packet, return_request, take_request};
