// The blocks of a store that may have any words, and walks along all its lists. Each walk claims the words that it meets, so it
// ends, and none meets a word twice.

pub mod active;
pub mod blocks;
mod kinds;
pub mod lists;
mod residents;
pub mod search;

pub use active::{PARENT, claim_active};
pub use blocks::{are_tiled, open_blocks};
pub use lists::claim_lists;
pub use search::has_task;
