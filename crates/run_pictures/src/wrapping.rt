// Words in lines.
ghost use Rattle.std.specs.Prelude.{◌≡◌, ◌++◌, ◌≤◌, ◌<◌, ◌+◌, ◌-◌, All, length, IfOk};
ghost use Rattle.std.specs.List.{flat_map};
ghost use Rattle.run_pictures.specs.Letters.{letters};

use crate::texts::{without_blanks, without_last_blanks};
use std::alloc::{AllocError, Global};

/// How far each line after the first one is moved in.
pub const INDENT: &[u8] = b"  ";

/// The words in lines of at most so many letters, where that is more than two. Each line but the first one is moved in by two. A line ends at a
/// blank, where there is one in its later half. No letter is lost: only blanks are.
pub fn wrapped<'t>(alloc: Global, words: &'t [u8], most: usize) -> Result<Vec<&'t [u8]>, AllocError>
    ensures letters { IfOk result (λ v. flat_map (λ line. letters line.now) v.items ≡ letters words.now) }
    ensures lengths { 2 < most → IfOk result (λ v. All (λ line. length line.now ≤ most) v.items) }
{
    let mut lines = Vec::new(alloc);
    let mut rest = words;
    let mut indent = 0;
    for count in 0..words.len() {
        if rest.len() <= most.saturating_sub(indent) {
            lines.push(rest)?;
            return Ok(lines);
        }
        let (line, others) = cut_line(rest, most, indent);
        lines.push(line)?;
        rest = others;
        indent = INDENT.len();
    }
    lines.push(rest)?;
    Ok(lines)
}

// The first line of words that do not go on one, and what is left of them.
fn cut_line(words: &[u8], most: usize, indent: usize) -> (&[u8], &[u8])
    ensures letters { letters result.0.now ++ letters result.1.now ≡ letters words.now }
    ensures length { length result.0.now ≤ most }
    ensures less { indent < most → 1 ≤ length words.now → length result.1.now + 1 ≤ length words.now }
{
    let (line, rest) = words.split_at(line_end(words, most, indent));
    (without_last_blanks(line), without_blanks(rest))
}

// How many letters go on a line: up to the last blank in its later half, or all that there is room for.
fn line_end(words: &[u8], most: usize, indent: usize) -> usize
    ensures inside { result ≤ length words.now }
    ensures length { result ≤ most }
    ensures some { indent < most → 1 ≤ length words.now → 1 ≤ result }
{
    let room = most.saturating_sub(indent).min(words.len());
    match words[..room].iter().rposition(|c| *c == b' ') {
        Some(place) if place.saturating_add(indent) >= most / 2 => place + 1,
        _ => room,
    }
}
