// Store handed out in blocks: they lie side by side from word 200 up to the end word, each with its size word.

mod block_walk;
mod calls;
pub mod laws;
mod pieces;
mod search;

pub use block_walk::Blocks;
pub use calls::{NoRoom, NotABlock, give, give_block, make, take, take_from};
pub use pieces::{Block, FIRST_BLOCK, Run};
pub use search::{block_of, blocks, blocks_from, first_run};
