// The texts that the shell writes.

pub mod blocks;
mod columns;
pub mod files;
pub mod laws;
pub mod numbers;
pub mod tasks;

pub use blocks::write_blocks;
pub use files::write_files;
pub use numbers::{write_error, write_return_code, write_task_number};
pub use tasks::write_tasks;
