// Each word of a store is claimed once, whatever the words are; and what a check of a store has to find.
#![tactic(auto)]

pub mod adoption_law;
pub mod list_claims;
pub mod word_claims;

pub use list_claims::{PARENT, are_tiled, claim_active, claim_lists, has_task, open_blocks};
pub use word_claims::Claims;
