// The passes over a store that may have any words: that over the root, and those over lists whose words were claimed.

pub mod coroutine_pass;
mod frames;
mod guests;
pub mod head_pass;
pub mod module_pass;
pub mod resident_pass;
pub mod root_pass;
pub mod starts;
pub mod table;
pub mod task_pass;

pub use coroutine_pass::are_valid_coroutines;
pub use head_pass::holds_words_of_tasks;
pub use module_pass::are_valid_modules;
pub use resident_pass::{has_resident_block, has_residents, holds_resident_words};
pub use root_pass::is_valid_root;
pub use starts::{open_modules, open_starts};
pub use table::{highest_of, holds_table, is_valid_running, running_of};
pub use task_pass::are_valid_tasks;
