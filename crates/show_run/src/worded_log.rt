// The log of a run in words.

pub mod requests;
pub mod runs;

pub(crate) use runs::worded_log;
