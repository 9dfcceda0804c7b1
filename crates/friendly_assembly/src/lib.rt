// Friendly assembly: the plain text that an assembly text with more forms becomes, line by line, or what is wrong in it.
#![tactic(auto)]

pub mod flaws;
mod forms;
mod labels;
pub mod laws;
pub mod names;
mod numbers;
mod operands;
pub mod parts;
mod plain_lines;
mod quotes;
pub mod readings;
mod second_labels;
pub mod settings;
mod strange_bytes;
mod strings;
mod texts;
pub mod values;

pub use texts::friendly_text;
