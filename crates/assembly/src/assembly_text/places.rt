// Where the bytes of a line are, as offsets in bytes from the hunk's begin.
ghost use Rattle.std.specs.Prelude.{◌≡◌, ◌+◌, ◌<◌, ◌≤◌, ◌^◌};
ghost use Rattle.assembly.specs.AssemblyText.Places.{closing_size, end_of, first_offset, hunk_size, most_words, pairs_of, place_of, rounded_up};

use crate::assembly_text::statements::{Boundary, Statement};

/// Code begins after the word that has the hunk's length.
pub const FIRST_OFFSET: u32 = 4;

/// The most words of a hunk.
pub const MOST_WORDS: u32 = 65_536;

/// The next offset on a boundary.
pub fn rounded_up(boundary: Boundary, offset: u32) -> u32
    requires { offset < 2 ^ 30 }
    ensures value { result ≡ rounded_up boundary offset }
    ensures later { offset ≤ result }
    ensures near { result ≤ offset + 3 }
{
    match boundary {
        Boundary::Half => (offset + 1) / 2 * 2,
        Boundary::Word => (offset + 3) / 4 * 4,
    }
}

/// What a label on the line names, where the bytes before the line end at the offset.
pub fn place_of(statement: &Statement, offset: u32) -> u32
    requires { offset < 2 ^ 30 }
    ensures { result ≡ place_of statement.now offset }
{
    match statement {
        Statement::Reserve(_) => rounded_up(Boundary::Half, offset),
        Statement::Address(_) => rounded_up(Boundary::Word, offset),
        _ => offset,
    }
}

/// Where the bytes of the line end.
pub fn end_of(statement: &Statement, offset: u32) -> u32
    requires { offset < 2 ^ 30 }
    ensures value { result ≡ end_of statement.now offset }
    ensures near { result ≤ offset + 8 }
{
    match statement {
        Statement::Fixed(bytes) => offset + bytes.len(),
        Statement::Relative { .. } | Statement::Indirect { .. } => offset + 2,
        Statement::Reserve(_) => rounded_up(Boundary::Half, offset) + 2,
        Statement::Address(_) => rounded_up(Boundary::Word, offset) + 4,
        Statement::Align(boundary) => rounded_up(*boundary, offset),
        Statement::Global { .. } => offset,
    }
}

/// How many pairs of the global table the line gives.
pub fn pairs_of(statement: &Statement) -> u32
    ensures { result ≡ pairs_of statement.now }
{
    match statement {
        Statement::Global { .. } => 1,
        _ => 0,
    }
}

/// The words of the whole hunk, where its bytes end at the offset.
pub fn hunk_size(offset: u32, pairs: u32) -> u32
    requires low { offset < 2 ^ 31 }
    requires few { pairs < 2 ^ 29 }
    ensures { result ≡ hunk_size offset pairs }
{
    (offset + 3) / 4 + closing_size(pairs)
}

fn closing_size(pairs: u32) -> u32
    requires { pairs < 2 ^ 29 }
    ensures { result ≡ closing_size pairs }
{
    if pairs == 0 { 1 } else { 2 * pairs + 2 }
}

/// What a label names.
#[derive(Clone, Copy)]
pub struct Place {
    /// Its offset in bytes from the hunk's begin.
    pub offset: u32,
    /// Whether a `RES` is there, with the label on its line.
    pub is_reserve: bool,
}
