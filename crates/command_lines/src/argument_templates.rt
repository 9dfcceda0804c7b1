// Command lines, read by their templates.

pub mod args;
pub mod cuts;
pub mod entries;
pub mod items;
pub mod laws;

pub use args::{Arg, read_args};
