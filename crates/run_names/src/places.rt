// Where a byte lies, in words.
ghost use Rattle.std.specs.Prelude.{◌≡◌};
ghost use Rattle.run_names.specs.Places.{has_byte, hunk_with};

use crate::functions::{FunctionName, function_in};
use crate::hunks::NamedHunk;
use std::alloc::AllocError;
use tool_texts::Said::{Bytes, Number};
use tool_texts::push_sentence;
use word_store::Store;

/// The bytes of a word.
const WORD_BYTES: u64 = 4;

/// A place in a hunk.
#[derive(Drop)]
pub struct Place<'a> {
    /// The name of the function that has a name there.
    pub function: Option<FunctionName>,
    /// The hunk.
    pub hunk: NamedHunk<'a>,
    /// How many bytes come before it in the hunk.
    pub offset: u64,
}

/// Where a byte lies, in the first of these hunks that has it; `None` where none has it.
pub fn place_in<'a>(store: &Store, hunks: &[NamedHunk<'a>], byte: u32) -> Option<Place<'a>> {
    let hunk = hunk_with(hunks, byte)?;
    let offset = u64::from(byte).saturating_sub(hunk.from.saturating_mul(WORD_BYTES));
    Some(Place {
        function: function_before(store, hunk, offset),
        hunk,
        offset,
    })
}

/// The first of the hunks that has the byte; `None` exactly where none has it.
pub fn hunk_with<'a>(hunks: &[NamedHunk<'a>], byte: u32) -> Option<NamedHunk<'a>>
    ensures { result ≡ hunk_with byte hunks.now }
{
    for hunk in hunks {
        if has_byte(*hunk, byte) {
            return Some(*hunk);
        }
    }
    None
}

// Whether a hunk has the byte.
fn has_byte(hunk: NamedHunk, byte: u32) -> bool
    ensures { result ≡ has_byte byte hunk.entry }
{
    let word = u64::from(byte) / WORD_BYTES;
    hunk.from <= word && word - hunk.from < hunk.words
}

// The name of the function in which the byte at an offset of a hunk is.
fn function_before(store: &Store, hunk: NamedHunk, offset: u64) -> Option<FunctionName> {
    let from = u32::try_from(hunk.from).ok()?;
    let count = u32::try_from(offset / WORD_BYTES + 1).ok()?;
    function_in(store.words(from, count)?)
}

/// Adds a place, in words: its function, where one has a name there, its module, and its offset in bytes.
pub fn push_place(text: &mut Vec<u8>, place: &Place) -> Result<(), AllocError> {
    push_sentence(text, &[Bytes(b"in ")])?;
    if let Some(name) = &place.function {
        push_sentence(
            text,
            &[
                Bytes(b"the function "),
                Bytes(name.letters()),
                Bytes(b" of "),
            ],
        )?;
    }
    push_sentence(text, &[Bytes(place.hunk.module)])?;
    if let Some(number) = place.hunk.number {
        push_sentence(text, &[Bytes(b", hunk "), Number(u64::from(number))])?;
    }
    push_sentence(text, &[Bytes(b" at offset "), Number(place.offset)])
}

/// Adds where a byte lies, after a comma and a blank; nothing where it lies in none of the hunks. The answer is whether something was added.
pub fn push_comma_place(
    text: &mut Vec<u8>,
    store: &Store,
    hunks: &[NamedHunk],
    byte: u32,
) -> Result<bool, AllocError> {
    let Some(place) = place_in(store, hunks, byte) else {
        return Ok(false);
    };
    push_sentence(text, &[Bytes(b", ")])?;
    push_place(text, &place)?;
    Ok(true)
}
