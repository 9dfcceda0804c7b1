// What the handlers of requests share: a request is taken and returned, and its name and its buffers are read and written.

pub mod answers;
pub mod buffers;
pub mod laws;
pub mod names;
pub mod requests;
pub mod services;

pub use answers::{answer_request, finish_turn, return_request};
pub use buffers::{can_read, can_write, read_buffer, read_buffer_into, write_buffer};
pub use names::name_at;
pub use requests::{Request, first_packet, request_at, take_request};
pub use services::serve_request;
