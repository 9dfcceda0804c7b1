// What the runs with each of many values of one number come to, in words; and a session with one of these values.

pub mod endings;
pub mod requests;
pub mod tables;
pub mod tool;
pub mod values;
pub mod variants;
pub mod written;
pub mod wrongs;

pub(crate) use tool::outcomes_text;
pub(crate) use variants::variant_text;
