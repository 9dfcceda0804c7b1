// What the tools share: bytes that are lent, what a tool gives, texts that grow in memory, and how what is wrong in a text is said.
#![tactic(auto)]

pub mod lent;
pub mod reports;
pub mod results;
pub mod sentences;

pub use lent::Lent;
pub use reports::{Report, push_blanks, reports_text};
pub use results::ToolText;
pub use sentences::{Said, push_sentence};
