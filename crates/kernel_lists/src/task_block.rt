// Task blocks: their words by name, the chain of tasks and the task table, and the lists that begin there.

pub mod chain;
pub mod fields;
pub mod laws;
pub mod lists;
pub mod roots;
pub mod search;
pub mod versions;

pub use chain::{insert, unlink};
pub use fields::{TcbField, field, set_field};
pub use lists::{coroutine_list, modules, tasks};
pub use roots::{RootField, root, set_root};
pub use search::{FIRST_GUEST, TABLE, find, free_id, priority_used};
pub use versions::{head_words, highest_id, module_at, most_modules, set_module_at};
