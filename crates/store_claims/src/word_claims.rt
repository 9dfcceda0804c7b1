// Claims of words: each word may be claimed once, and only while it is open. So a walk along links that claims the words of each
// node ends, whatever the words of the store are, and meets no word twice.

pub mod claims;
pub mod lists;

pub use claims::Claims;
pub use lists::{NodeKind, claim_list};
