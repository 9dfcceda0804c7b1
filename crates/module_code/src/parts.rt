// What is written of a hunk.
use module_text::Hunk;

/// In which form a hunk is written.
#[derive(Drop)]
pub enum Form {
    /// As assembly that makes it.
    Whole(Vec<u8>),
    /// As assembly that makes it but for its last word.
    WithLast(Vec<u8>),
    /// As words, with the reason why there is no assembly.
    Words(Vec<u8>),
}

/// What is written of a hunk.
#[derive(Drop)]
pub struct Part<'a> {
    /// The number of the hunk, from 1.
    pub number: u64,
    /// The hunk.
    pub hunk: &'a Hunk,
    /// The form in which it is written.
    pub form: Form,
    /// What is written.
    pub text: Vec<u8>,
}
