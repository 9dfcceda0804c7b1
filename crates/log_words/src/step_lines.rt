// Single lines of a step, in words.
use crate::bytes::{push_shown_byte, push_signed};
use crate::kinds::Kind;
use crate::step_texts::{StepText, Written};
use crate::tellers::Teller;
use std::alloc::AllocError;
use tool_texts::Said::{Bytes, Number};
use tool_texts::push_sentence;

/// Adds a word that is written, as it was and as it is.
pub fn push_written(words: &mut Vec<u8>, written: Written) -> Result<(), AllocError> {
    push_sentence(
        words,
        &[Bytes(b"word "), Number(written.address), Bytes(b": ")],
    )?;
    push_signed(words, written.old)?;
    push_sentence(words, &[Bytes(b" -> ")])?;
    push_signed(words, written.new)
}

impl Teller<'_> {
    /// Tells the key that comes in.
    pub fn tell_key(&mut self, step: &StepText) -> Result<(), AllocError> {
        let Some(key) = step.key else {
            return Ok(());
        };
        if !self.wants(Kind::Key, step.moment, &[]) {
            return Ok(());
        }
        let mut words = Vec::new(self.alloc);
        push_sentence(&mut words, &[Bytes(b"the key \"")])?;
        push_shown_byte(&mut words, key)?;
        push_sentence(&mut words, &[Bytes(b"\" comes in")])?;
        self.push_line(Kind::Key, step.moment, &[], words.as_slice())
    }
}
