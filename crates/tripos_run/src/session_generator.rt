// The sessions that numbers make, and the sums of what a run of one writes.

mod drafts;
pub mod laws;
pub mod sessions;
pub mod summaries;
pub mod tallies;
mod trails;

pub use sessions::generate;
pub use summaries::gather_summary;
pub use tallies::Tally;
