// What is wrong in a text that the first program refuses.

pub mod refusals;
pub mod requests;
pub mod tool;

pub(crate) use tool::errors_text;
