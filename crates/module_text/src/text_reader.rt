// What readers of texts share: lines, fields, numbers, and why a text is refused.

pub mod ends;
pub mod fields;
pub mod lines;
pub mod numbers;

pub use ends::TextEnd;
pub use fields::{after_word, number_after};
pub use lines::split_line;
pub use numbers::{any_number, digit, number};
