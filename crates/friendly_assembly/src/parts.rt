// The parts of a line.
ghost use Rattle.std.specs.Prelude.{◌≡◌, ◌+◌, ◌*◌, ◌<◌, ◌≤◌, ◌^◌, ◌∷◌, [], ◌++◌, drop, length, take, IfOk, IfSome, MatchOption, OnOk};
ghost use Rattle.friendly_assembly.specs.Parts.{parts_of, pieces, placed};

use crate::readings::{Reading, Stop, bytes_before};
use std::alloc::{AllocError, Global};
use tool_texts::Lent;

/// A part of a line.
#[derive(Drop)]
pub struct Part<'a> {
    /// The column at which it begins, from 1.
    pub column: usize,
    /// Its bytes.
    pub text: Lent<'a>,
}

/// The parts of the bytes before a comment.
#[tactic(auto, using(crate::proofs::PartLists::placed_more), unfolding(crate::specs::Parts::parts_of))]
pub fn parts_of(alloc: Global, code: &[u8]) -> Result<Vec<Part<'_>>, AllocError>
    ensures { IfOk result (λ v. v.items ≡ parts_of code.now) }
{
    let mut parts = Vec::new(alloc);
    let mut column = 1;
    let mut rest = code;
    while let Some((piece, others)) = split_piece(rest) {
        push_piece(&mut parts, column, piece)?;
        column += piece.len() + 1;
        rest = others;
    }
    Ok(parts)
}

// Adds a piece, where it has bytes.
fn push_piece<'a>(
    parts: &mut Vec<Part<'a>>,
    column: usize,
    piece: &'a [u8],
) -> Result<(), AllocError>
    ensures { OnOk result (parts.new.items ≡ parts.old.items ++ placed column (piece.now ∷ [])) }
{
    if piece.is_empty() {
        return Ok(());
    }
    parts.push(Part {
        column,
        text: Lent::new(piece),
    })?;
    Ok(())
}

// The first piece, and the text after the blank that ends it; `None` exactly where the text is empty.
#[tactic(auto, using(crate::proofs::PartLists::first_piece))]
fn split_piece(text: &[u8]) -> Option<(&[u8], &[u8])>
    ensures cases { let all = pieces Reading.Outside text.now in
        MatchOption result (all ≡ []) (λ x. all ≡ x.0.now ∷ pieces Reading.Outside x.1.now) }
    ensures shorter { IfSome result (λ x. length x.0.now + 1 + 2 * length x.1.now
        ≤ 2 * length text.now) }
    ensures goes_on { IfSome result (λ x. length x.1.now < length text.now) }
{
    if text.is_empty() {
        return None;
    }
    let end = bytes_before(Stop::AtBlank, text);
    let (piece, rest) = text.split_at(end);
    Some((piece, after_first(rest)))
}

// The bytes after the first.
fn after_first(text: &[u8]) -> &[u8]
    ensures { result.now ≡ drop 1 text.now }
{
    match text.split_first() {
        Some((_, others)) => others,
        None => &[],
    }
}
