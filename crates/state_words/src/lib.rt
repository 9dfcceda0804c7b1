// The state of a machine at a moment, in words: where it is and why, what each task does and waits for, and the lists of its kernel.
#![tactic(auto)]

pub mod absent;
pub mod arrivals;
pub mod blocks;
pub mod chains;
pub mod coroutine_words;
pub mod cycles;
pub mod ends;
pub mod instructions;
pub mod kernel_words;
pub mod lists;
pub mod module_words;
pub mod packets;
pub mod plain_states;
pub mod programs;
pub mod queue_words;
pub mod queues;
pub mod scenes;
pub mod spans;
pub mod stacks;
pub mod states;
pub mod stuck;
pub mod tasks;
pub mod trails;
pub mod ways;
pub mod word_names;

pub use scenes::{Scene, View};
