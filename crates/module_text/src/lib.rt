// The text of a module: hunks of words with their relocations, read and printed.
#![tactic(auto)]

pub mod check;
mod grammar;
pub mod laws;
pub mod lists;
pub mod modules;
pub mod print;
pub mod read;
mod step;
pub mod text_reader;
pub mod texts;
pub mod tokens;

pub use check::{Shape, check_module};
pub use grammar::RELOCATIONS;
pub use lists::{Hunks, WordList};
pub use modules::{Hunk, Module};
pub use print::print_module;
pub use read::read_module;
pub use text_reader::{TextEnd, after_word, any_number, number, number_after, split_line};
pub use texts::{SliceText, TextBytes};
pub use tokens::{NextWord, next_word};
