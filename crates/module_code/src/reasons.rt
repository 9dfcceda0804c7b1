// Why no assembly makes a hunk.
use crate::global_tables::{GlobalPair, word_at};
use crate::hunk_code::HunkCode;
use crate::labels::address_in;
use crate::units::{FIRST, Place, Unit};
use std::alloc::{AllocError, Global};
use tool_texts::Said::{self, Bytes, Number};
use tool_texts::push_sentence;

/// The most words of a hunk that assembly makes.
const MOST_WORDS: usize = 65536;

/// Why no assembly makes a hunk, in words; `None` where nothing speaks against it.
pub fn why_none(alloc: Global, code: &HunkCode) -> Result<Option<Vec<u8>>, AllocError> {
    let words = code.hunk.words.as_slice();
    let size = Number(words.len() as u64);
    let first = Number(u64::from(word_at(words, 0)));
    match words.len() {
        1 => return said(
            alloc,
            &[Bytes(b"it has 1 word, and assembly makes at least 2")],
        ),
        0 => return said(
            alloc,
            &[Bytes(b"it has 0 words, and assembly makes at least 2")],
        ),
        _ => {}
    }
    if words.len() > MOST_WORDS {
        return said(
            alloc,
            &[
                Bytes(b"it has "),
                size,
                Bytes(b" words, and assembly makes at most 65536"),
            ],
        );
    }
    if word_at(words, 0) as usize != words.len() {
        return said(
            alloc,
            &[
                Bytes(b"its first word, "),
                first,
                Bytes(b", is not its length, "),
                size,
            ],
        );
    }
    if code.table.begin < 1 || word_at(words, code.table.begin) != 0 {
        return said(alloc, &[Bytes(b"no word 0 is before its global table")]);
    }
    for pair in code.table.pairs.as_slice() {
        if let Some(why) = why_no_pair(alloc, code, *pair)? {
            return Ok(Some(why));
        }
    }
    why_not_relocated(alloc, code)
}

fn said(alloc: Global, parts: &[Said]) -> Result<Option<Vec<u8>>, AllocError> {
    let mut words = Vec::new(alloc);
    push_sentence(&mut words, parts)?;
    Ok(Some(words))
}

// Why assembly has no such pair.
fn why_no_pair(
    alloc: Global,
    code: &HunkCode,
    pair: GlobalPair,
) -> Result<Option<Vec<u8>>, AllocError> {
    let number = Number(u64::from(pair.number));
    if !pair.sets() {
        return said(
            alloc,
            &[
                Bytes(b"it sets global "),
                number,
                Bytes(b", and a global has a number from 1 to 1000"),
            ],
        );
    }
    if pair.place < FIRST || pair.place > code.end() {
        return said(
            alloc,
            &[
                Bytes(b"its global "),
                number,
                Bytes(b" is at offset "),
                Number(u64::from(pair.place)),
                Bytes(b", outside of its code"),
            ],
        );
    }
    Ok(None)
}

// Why assembly has no such relocations.
fn why_not_relocated(alloc: Global, code: &HunkCode) -> Result<Option<Vec<u8>>, AllocError> {
    let mut former = None;
    for offset in code.hunk.relocations.as_slice() {
        if former.is_some_and(|before| *offset <= before) {
            return said(alloc, &[Bytes(b"its relocations do not rise")]);
        }
        former = Some(*offset);
        if let Some(why) = why_no_address(alloc, code, *offset)? {
            return Ok(Some(why));
        }
    }
    Ok(None)
}

// Why assembly has no address in the word at an offset, in words.
fn why_no_address(
    alloc: Global,
    code: &HunkCode,
    offset: u32,
) -> Result<Option<Vec<u8>>, AllocError> {
    let at = offset.saturating_mul(4);
    let number = Number(u64::from(offset));
    if !is_address(code, at) {
        return said(
            alloc,
            &[
                Bytes(b"its word "),
                number,
                Bytes(b" is relocated, where assembly has no address"),
            ],
        );
    }
    if code.word(at) < 1 || address_in(code, at) > code.end() {
        return said(
            alloc,
            &[
                Bytes(b"its word "),
                number,
                Bytes(b" is relocated, and leads to word "),
                Number(u64::from(code.word(at))),
                Bytes(b", outside of its code"),
            ],
        );
    }
    Ok(None)
}

fn is_address(code: &HunkCode, at: u32) -> bool {
    matches!(
        code.place(at),
        Some(Place {
            unit: Unit::Address,
            ..
        })
    )
}
