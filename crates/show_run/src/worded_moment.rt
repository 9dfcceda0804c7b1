// The state of a machine at a moment, or the lists of its kernel, in words.

pub mod requests;
pub mod runs;

pub(crate) use runs::worded_moment;
