// The lines of the log.
use crate::bytes::push_padded;
use crate::kinds::Kind;
use crate::step_texts::Moment;
use crate::tellers::Teller;
use kernel_lists::FIRST_GUEST;
use run_names::Party;
use std::alloc::AllocError;
use tool_texts::Said::Bytes;
use tool_texts::{push_blanks, push_sentence};

impl Teller<'_> {
    /// Adds a line of the step, if it is wanted: its moment, its kind and these words. It is about these besides the task of the step.
    pub fn push_line(
        &mut self,
        kind: Kind,
        moment: Moment,
        about: &[Party],
        words: &[u8],
    ) -> Result<(), AllocError> {
        if !self.wants(kind, moment, about) {
            return Ok(());
        }
        push_moment(&mut self.text, self.is_bare, kind, moment)?;
        push_kind(&mut self.text, kind)?;
        push_sentence(&mut self.text, &[Bytes(words), Bytes(b"\n")])
    }
}

// When and where it is: the step, the tick, the task and PC. A dash is in place of what is not there or says nothing.
fn push_moment(
    text: &mut Vec<u8>,
    is_bare: bool,
    kind: Kind,
    moment: Moment,
) -> Result<(), AllocError> {
    push_padded(text, moment.step, 6)?;
    push_column(text, (!is_bare).then_some(moment.tick), 6)?;
    let task = u64::from(moment.task);
    push_column(text, (task > 0).then_some(task), 5)?;
    let is_at = (is_bare || moment.task >= FIRST_GUEST) && kind != Kind::Run;
    push_column(text, is_at.then_some(u64::from(moment.pc)), 8)
}

// A blank and a number, or a dash, in a column of so many bytes.
fn push_column(text: &mut Vec<u8>, number: Option<u64>, width: usize) -> Result<(), AllocError> {
    push_sentence(text, &[Bytes(b" ")])?;
    match number {
        Some(number) => push_padded(text, number, width.saturating_sub(1)),
        None => {
            push_blanks(text, width.saturating_sub(2))?;
            push_sentence(text, &[Bytes(b"-")])
        }
    }
}

// The kind, in a column of its own.
fn push_kind(text: &mut Vec<u8>, kind: Kind) -> Result<(), AllocError> {
    let word = kind.word();
    push_sentence(text, &[Bytes(b"  "), Bytes(word)])?;
    push_blanks(text, 9usize.saturating_sub(word.len()))
}
