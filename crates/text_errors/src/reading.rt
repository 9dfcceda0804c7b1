// A text that is read, with the errors that are found in it.

use crate::findings::Findings;
use crate::lines::TextLines;
use std::alloc::{AllocError, Global};
use tool_texts::Said;

/// The code of a line that has no form of a line there.
pub const NO_FORM: u32 = 1;

/// The code of a number or a name out of its range.
pub const OUT_OF_RANGE: u32 = 2;

/// The code of a text that ends too early.
pub const CUT_OFF: u32 = 3;

/// A text that is read, with the errors that are found in it.
#[derive(Drop)]
pub struct Reading<'a> {
    /// Where memory comes from.
    pub alloc: Global,
    /// The lines of the text.
    pub lines: TextLines<'a>,
    /// The errors.
    pub findings: Findings,
}

impl<'a> Reading<'a> {
    /// A text of which nothing is read yet.
    pub fn new(alloc: Global, text: &'a [u8]) -> Result<Reading<'a>, AllocError> {
        let lines = TextLines::read(alloc, text)?;
        Ok(Reading {
            alloc,
            lines,
            findings: Findings::new(alloc),
        })
    }

    /// An error at a column of line n.
    pub fn wrong(
        &mut self,
        n: usize,
        column: usize,
        code: u32,
        parts: &[Said],
    ) -> Result<(), AllocError> {
        self.findings.add(self.alloc, n, column, code, parts)
    }
}
