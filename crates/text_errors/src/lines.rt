// The lines of a text.

use std::alloc::{AllocError, Global};
use tool_texts::Lent;

/// The lines of a text, which are counted from 1.
#[derive(Drop)]
pub struct TextLines<'a> {
    /// The lines, without their LF.
    lines: Vec<Lent<'a>>,
    /// Whether the last line has a LF, or there is no line.
    is_ended: bool,
}

impl<'a> TextLines<'a> {
    /// The lines of a text.
    pub fn read(alloc: Global, text: &'a [u8]) -> Result<TextLines<'a>, AllocError> {
        let mut lines = Vec::new(alloc);
        for line in text.split(|c| *c == b'\n') {
            lines.push(Lent::new(line))?;
        }
        // what is after the last LF is a line only where it has bytes
        let is_ended = text.is_empty() || text.ends_with(b"\n");
        if is_ended {
            lines.pop();
        }
        Ok(TextLines { lines, is_ended })
    }

    /// How many lines there are.
    pub fn count(&self) -> usize {
        self.lines.len()
    }

    /// The number of the line after the last one.
    pub fn after_last(&self) -> usize {
        self.lines.len().saturating_add(1)
    }

    /// The line at which what is missing at the end would be.
    pub fn end_line(&self) -> usize {
        if self.is_ended {
            self.after_last()
        } else {
            self.count()
        }
    }

    /// Line n with a CR that may be at its end; nothing where there is no such line.
    pub fn whole(&self, n: usize) -> &'a [u8] {
        match n.checked_sub(1) {
            Some(index) => self.at(index),
            None => &[],
        }
    }

    fn at(&self, index: usize) -> &'a [u8] {
        match self.lines.as_slice().get(index) {
            Some(line) => line.bytes(),
            None => &[],
        }
    }

    /// Line n without its end, to which a CR before the LF belongs; nothing where there is no such line.
    pub fn line(&self, n: usize) -> &'a [u8] {
        let whole = self.whole(n);
        if n < self.count() || self.is_ended {
            return whole.strip_suffix(b"\r").unwrap_or(whole);
        }
        whole
    }
}

/// The first word of a line, up to its first blank.
pub fn first_word(line: &[u8]) -> &[u8] {
    match line.iter().position(|c| *c == b' ') {
        Some(end) => &line[..end],
        None => line,
    }
}
