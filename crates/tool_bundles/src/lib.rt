// Bundles: the one input of a tool that takes words and the files that some of them name; and lists that grow, which the tools share.
#![tactic(auto)]

pub mod bundles;
pub mod ends;
pub mod lists;

pub use bundles::{Content, Entries, Entry, read_bundle};
pub use ends::BundleEnd;
pub use lists::Listed;
