// Hunks that are loaded.
ghost use Rattle.std.specs.Prelude.{◌≡◌, ◌<◌, ◌+◌, ◌≤◌, ◌^◌, ◌++◌, length, IfOk, OnOk};
ghost use Rattle.program_places.specs.Loaded.{begins_with, hunks_along, hunks_here, is_like, is_placed, placed_at, placed_hunks};

use crate::maps::{MappedHunk, PlacedHunk, ProgramMap};
use std::alloc::{AllocError, Global};

/// A hunk that is loaded.
#[derive(Clone, Copy, Debug)]
pub struct LoadedHunk {
    /// Which of the map's hunks it is, from 0.
    pub hunk: usize,
    /// The address of its first word, which has the number of its words.
    pub word: u32,
}

/// Whether the map says where its hunks are, as that of a bare machine does.
pub fn is_placed(map: &ProgramMap) -> bool
    ensures { result ≡ is_placed map.now }
{
    !map.placed.as_slice().is_empty()
}

/// The hunks that are where the map says, in its order.
pub fn placed_hunks(alloc: Global, map: &ProgramMap) -> Result<Vec<LoadedHunk>, AllocError>
    ensures { IfOk result (λ v. v.items ≡ placed_hunks map.now) }
{
    let mut loaded = Vec::new(alloc);
    for placed in map.placed.as_slice() {
        push_named(&mut loaded, placed, map.hunks.as_slice())?;
    }
    Ok(loaded)
}

// Adds the hunks with this name, at this place.
fn push_named(
    loaded: &mut Vec<LoadedHunk>,
    placed: &PlacedHunk,
    hunks: &[MappedHunk],
) -> Result<(), AllocError>
    ensures { OnOk result (loaded.new.items ≡ loaded.old.items ++ placed_at hunks.now placed.now) }
{
    for (i, hunk) in hunks.iter().enumerate() {
        if hunk.name.bytes() == placed.name.bytes() {
            loaded.push(LoadedHunk {
                hunk: i,
                word: placed.word,
            })?;
        }
    }
    Ok(())
}

/// Adds the hunks that are anywhere in these words, of which the first is at this address.
pub fn push_loaded(
    loaded: &mut Vec<LoadedHunk>,
    hunks: &[MappedHunk],
    at: u32,
    words: &[u32],
) -> Result<(), AllocError>
    requires { at + length words.now < 2 ^ 32 }
    ensures { OnOk result (loaded.new.items ≡ loaded.old.items ++ hunks_along hunks.now at words.now) }
{
    let mut rest = words;
    let mut at = at;
    while let Some((_, others)) = rest.split_first() {
        push_here(loaded, hunks, at, rest)?;
        rest = others;
        at += 1;
    }
    Ok(())
}

// Adds the hunks that are where these words begin, at this address.
fn push_here(
    loaded: &mut Vec<LoadedHunk>,
    hunks: &[MappedHunk],
    at: u32,
    words: &[u32],
) -> Result<(), AllocError>
    ensures { OnOk result (loaded.new.items ≡ loaded.old.items ++ hunks_here hunks.now at words.now) }
{
    for (i, hunk) in hunks.iter().enumerate() {
        if begins_with(words, hunk.words.as_slice()) {
            loaded.push(LoadedHunk { hunk: i, word: at })?;
        }
    }
    Ok(())
}

// Whether words begin with those of a hunk, but for those that are relocated.
fn begins_with(words: &[u32], hunk: &[Option<u32>]) -> bool
    ensures { result ≡ begins_with words.now hunk.now }
{
    let mut rest = words;
    for wanted in hunk {
        let Some((word, others)) = rest.split_first() else {
            return false;
        };
        if !is_like(*word, *wanted) {
            return false;
        }
        rest = others;
    }
    true
}

// Whether a word is the one that a hunk has there.
fn is_like(word: u32, wanted: Option<u32>) -> bool
    ensures { result ≡ is_like word wanted }
{
    match wanted {
        Some(own) => word == own,
        None => true,
    }
}
