// The errors that are found in a text.

use std::alloc::{AllocError, Global};
use tool_texts::{Said, push_sentence};

/// The most errors that are kept.
const MOST_KEPT: usize = 20;

/// An error in a text.
#[derive(Drop)]
pub struct Finding {
    /// The number of the line, from 1; that after the last one where something is missing at the end.
    pub line: usize,
    /// The column at which it is, from 1.
    pub column: usize,
    /// The code with which the program refuses it.
    pub code: u32,
    /// What is there, and what was expected.
    pub words: Vec<u8>,
}

/// The errors that are found, in their order.
#[derive(Drop)]
pub struct Findings {
    /// The first ones.
    kept: Vec<Finding>,
    /// How many came after these.
    more: usize,
}

impl Findings {
    /// None.
    pub fn new(alloc: Global) -> Findings {
        Findings {
            kept: Vec::new(alloc),
            more: 0,
        }
    }

    /// The first ones.
    pub fn as_slice(&self) -> &[Finding] {
        self.kept.as_slice()
    }

    /// How many came after these.
    pub fn more(&self) -> usize {
        self.more
    }

    /// Whether none is found.
    pub fn is_empty(&self) -> bool {
        self.kept.is_empty()
    }

    /// One more, at a column of a line.
    pub fn add(
        &mut self,
        alloc: Global,
        line: usize,
        column: usize,
        code: u32,
        parts: &[Said],
    ) -> Result<(), AllocError> {
        if self.kept.len() >= MOST_KEPT {
            self.more = self.more.saturating_add(1);
            return Ok(());
        }
        let mut words = Vec::new(alloc);
        push_sentence(&mut words, parts)?;
        self.kept.push(Finding {
            line,
            column,
            code,
            words,
        })?;
        Ok(())
    }
}
