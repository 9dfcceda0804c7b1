// The table: the logs of both runs, side by side.

use crate::addresses::MovedAddresses;
use crate::alignment::{Alignment, Pair, align};
use crate::cells::{Cell, Shown};
use crate::keys::when_due;
use crate::sides::Both;
use log_words::bytes::push_padded;
use run_pictures::texts::without_last_blanks;
use std::alloc::{AllocError, Global};
use tool_texts::Said::Bytes;
use tool_texts::{push_blanks, push_sentence};

/// How many columns come before the words of a line.
const HEAD: usize = 22;

/// How many columns a table has at least.
pub const LEAST_WIDTH: usize = 100;

/// How many it has at most.
pub const MOST_WIDTH: usize = 400;

/// How two lines are to one another that are in one row.
#[derive(Clone, Copy, PartialEq, Eq)]
enum Mark {
    /// They say the same.
    Same,
    /// They differ.
    Differ,
    /// It is a line of A alone.
    OfA,
    /// It is one of B alone.
    OfB,
}

impl Mark {
    fn sign(self) -> &'static [u8] {
        match self {
            Mark::Same => b"=",
            Mark::Differ => b"|",
            Mark::OfA => b"<",
            Mark::OfB => b">",
        }
    }
}

/// What the table is made of.
#[derive(Clone, Copy)]
struct Table<'s, 'a> {
    /// Where memory comes from.
    alloc: Global,
    /// How many columns each side has.
    side: usize,
    /// What is shown of A.
    a: &'s Shown<'a>,
    /// What is shown of B.
    b: &'s Shown<'a>,
}

/// How many columns each side of a table has, which has so many.
pub fn side_width(width: usize) -> usize {
    (width.max(LEAST_WIDTH) - 3) / 2
}

/// Adds the table of what is shown of both runs, with so many columns. What is before the first line of both is left out, as far as it is of the lines
/// before the anchor, of which so many were asked for.
pub fn push_table(
    alloc: Global,
    text: &mut Vec<u8>,
    width: usize,
    before: usize,
    shown: Both<&Shown>,
    moved: &mut MovedAddresses,
) -> Result<(), AllocError> {
    let table = Table {
        alloc,
        side: side_width(width),
        a: shown.a,
        b: shown.b,
    };
    let alignment = align(
        alloc,
        shown.a.cells.as_slice(),
        shown.b.cells.as_slice(),
        moved,
    )?;
    push_sides(
        text,
        table.side,
        b"A: step task  kind     what",
        b"|",
        b"B: step task  kind     what",
    )?;
    table.push_rows(text, before, &alignment, moved)
}

impl Table<'_, '_> {
    // Adds the rows: lines that one run has, beside those of the other, and then a line of both.
    fn push_rows(
        &self,
        text: &mut Vec<u8>,
        before: usize,
        alignment: &Alignment,
        moved: &mut MovedAddresses,
    ) -> Result<(), AllocError> {
        let mut from = self.first_row(before, alignment);
        for _ in 0..self.a.cells.len() {
            let Some(pair) = alignment.next_pair(from) else {
                break;
            };
            if !self.push_alone(text, from, pair, self.end())? {
                return Ok(());
            }
            self.push_both(text, pair, moved)?;
            from = Pair {
                a: pair.a.saturating_add(1),
                b: pair.b.saturating_add(1),
            };
        }
        self.push_alone(text, from, self.end(), self.end())?;
        Ok(())
    }

    // The rows after the last.
    fn end(&self) -> Pair {
        Pair {
            a: self.a.cells.len(),
            b: self.b.cells.len(),
        }
    }

    // With which lines the table begins: what is before the first line of both is a matter of where it begins.
    fn first_row(&self, before: usize, alignment: &Alignment) -> Pair {
        let first = Pair { a: 0, b: 0 };
        match alignment.next_pair(first) {
            Some(pair) if pair.a <= before && pair.b <= before => pair,
            _ => first,
        }
    }

    // Adds the lines from some on to others, side by side. The answer is whether all are added: what comes after the last line of a run is not known,
    // unless its log is at its end.
    fn push_alone(
        &self,
        text: &mut Vec<u8>,
        from: Pair,
        to: Pair,
        end: Pair,
    ) -> Result<bool, AllocError> {
        let Pair { mut a, mut b } = from;
        for _ in 0..end.a.saturating_add(end.b) {
            if a >= to.a && b >= to.b {
                return Ok(true);
            }
            if a < to.a && b < to.b {
                self.push_row(text, self.a.cells.get(a), self.b.cells.get(b), Mark::Differ)?;
                a = a.saturating_add(1);
                b = b.saturating_add(1);
            } else if a < to.a && (to.b < end.b || self.b.is_over) {
                self.push_row(text, self.a.cells.get(a), None, Mark::OfA)?;
                a = a.saturating_add(1);
            } else if b < to.b && (to.a < end.a || self.a.is_over) {
                self.push_row(text, None, self.b.cells.get(b), Mark::OfB)?;
                b = b.saturating_add(1);
            } else {
                return Ok(false);
            }
        }
        Ok(true)
    }

    // Adds a line of both.
    fn push_both(
        &self,
        text: &mut Vec<u8>,
        pair: Pair,
        moved: &mut MovedAddresses,
    ) -> Result<(), AllocError> {
        let (Some(a), Some(b)) = (self.a.cells.get(pair.a), self.b.cells.get(pair.b)) else {
            return Ok(());
        };
        let mark = if self.are_said_alike(a, b, moved)? {
            Mark::Same
        } else {
            Mark::Differ
        };
        self.push_row(text, Some(a), Some(b), mark)
    }

    // Whether two lines say the same, but for when a packet is due.
    fn are_said_alike(
        &self,
        a: &Cell,
        b: &Cell,
        moved: &mut MovedAddresses,
    ) -> Result<bool, AllocError> {
        let a = self.said(a)?;
        let b = self.said(b)?;
        moved.are_alike(a.as_slice(), b.as_slice())
    }

    // The kind and words of a line. An instruction is its words here, and no part of a way.
    fn said(&self, cell: &Cell) -> Result<Vec<u8>, AllocError> {
        let words = cell.words.as_slice();
        let words = match when_due(words) {
            Some((before, _)) => before,
            None => words,
        };
        let mut text = Vec::new(self.alloc);
        push_sentence(
            &mut text,
            &[Bytes(cell.line.kind), Bytes(b": "), Bytes(words)],
        )?;
        Ok(text)
    }

    // Adds a row. A line of both is that of A, with its step in B.
    fn push_row(
        &self,
        text: &mut Vec<u8>,
        a: Option<&Cell>,
        b: Option<&Cell>,
        mark: Mark,
    ) -> Result<(), AllocError> {
        let left = self.lines_of(a)?;
        let right = match (b, mark) {
            (Some(cell), Mark::Same) => self.step_of(cell)?,
            _ => self.lines_of(b)?,
        };
        for place in 0..left.len().max(right.len()) {
            let sign: &[u8] = if place == 0 || mark == Mark::Differ {
                mark.sign()
            } else {
                b" "
            };
            push_sides(
                text,
                self.side,
                line_at(left.as_slice(), place),
                sign,
                line_at(right.as_slice(), place),
            )?;
        }
        Ok(())
    }

    // The step of a line, as the lines of one side.
    fn step_of(&self, cell: &Cell) -> Result<Vec<Vec<u8>>, AllocError> {
        let mut lines = Vec::new(self.alloc);
        let mut line = Vec::new(self.alloc);
        push_padded(&mut line, cell.line.step, 7)?;
        lines.push(line)?;
        Ok(lines)
    }

    // A line of a log, as lines of one side; nothing where there is none.
    fn lines_of(&self, cell: Option<&Cell>) -> Result<Vec<Vec<u8>>, AllocError> {
        let mut lines = Vec::new(self.alloc);
        let Some(cell) = cell else {
            return Ok(lines);
        };
        let room = self.side.saturating_sub(HEAD).max(1);
        let parts = cut_words(self.alloc, cell.words.as_slice(), room)?;
        for part in parts.iter() {
            let mut line = Vec::new(self.alloc);
            if lines.is_empty() {
                push_head(&mut line, cell)?;
            } else {
                push_blanks(&mut line, HEAD)?;
            }
            push_sentence(&mut line, &[Bytes(*part)])?;
            lines.push(line)?;
        }
        Ok(lines)
    }
}

// The line with an index, or nothing.
fn line_at(lines: &[Vec<u8>], place: usize) -> &[u8] {
    match lines.get(place) {
        Some(line) => line.as_slice(),
        None => &[],
    }
}

// Adds the step, the task and the kind of a line.
fn push_head(text: &mut Vec<u8>, cell: &Cell) -> Result<(), AllocError> {
    push_padded(text, cell.line.step, 7)?;
    push_blanks(text, 5usize.saturating_sub(cell.line.task.len()))?;
    push_sentence(
        text,
        &[Bytes(cell.line.task), Bytes(b"  "), Bytes(cell.line.kind)],
    )?;
    push_blanks(text, 8usize.saturating_sub(cell.line.kind.len()))
}

/// Adds a line with both sides, of which each has so many columns, and a sign between them.
pub fn push_sides(
    text: &mut Vec<u8>,
    side: usize,
    left: &[u8],
    sign: &[u8],
    right: &[u8],
) -> Result<(), AllocError> {
    let right = without_last_blanks(right);
    if right.is_empty() && sign == b" ".as_slice() {
        return push_sentence(text, &[Bytes(without_last_blanks(left)), Bytes(b"\n")]);
    }
    push_sentence(text, &[Bytes(left)])?;
    push_blanks(text, side.saturating_sub(left.len()).saturating_add(1))?;
    push_sentence(text, &[Bytes(sign)])?;
    if !right.is_empty() {
        push_sentence(text, &[Bytes(b" "), Bytes(right)])?;
    }
    push_sentence(text, &[Bytes(b"\n")])
}

// Words in lines of at most so many columns. A line ends at a blank, where there is one in its later half.
fn cut_words(alloc: Global, words: &[u8], room: usize) -> Result<Vec<&[u8]>, AllocError> {
    let mut lines = Vec::new(alloc);
    let mut rest = words;
    for _ in 0..words.len() {
        if rest.len() <= room {
            break;
        }
        let (line, others) = cut_line(rest, room);
        lines.push(line)?;
        rest = others;
    }
    lines.push(rest)?;
    Ok(lines)
}

// The first line of words, and what is left of them.
fn cut_line(words: &[u8], room: usize) -> (&[u8], &[u8]) {
    let (front, _) = words.split_at(room.saturating_add(1).min(words.len()));
    match front.iter().rposition(|c| *c == b' ') {
        Some(place) if place.saturating_add(1) >= room / 2 => {
            let (line, rest) = words.split_at(place.min(words.len()));
            (line, rest.split_first().map_or(rest, |(_, rest)| rest))
        }
        _ => words.split_at(room.min(words.len())),
    }
}
