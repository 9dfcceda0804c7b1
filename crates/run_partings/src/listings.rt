// The first line in which two listings or texts differ.
ghost use Rattle.std.specs.Prelude.{◌<◌, ◌^◌, length};

use assembly::module_listing::disassemble;
use module_text::{read_module, split_line};
use run_pictures::texts::{next_field, without_blanks};
use std::alloc::{AllocError, Global};
use text_sinks::TextSink;

/// A text of so many bytes, or more, is read as no module here.
const TOO_LONG: usize = 1 << 30;

/// A line of a listing: an offset, and an instruction.
#[derive(Clone, Copy)]
pub struct Listed<'a> {
    /// The line; nothing after the last one.
    pub text: &'a [u8],
}

impl<'a> Listed<'a> {
    /// Its offset.
    pub fn offset(self) -> &'a [u8] {
        next_field(self.text).map_or(&[], |(offset, _)| offset)
    }

    /// What comes after the offset.
    pub fn words(self) -> &'a [u8] {
        next_field(self.text).map_or(self.text, |(_, rest)| without_blanks(rest))
    }
}

/// The first lines that differ.
#[derive(Clone, Copy)]
pub struct OtherLines<'a> {
    /// Their number, from 1.
    pub number: u64,
    /// That of A.
    pub a: Listed<'a>,
    /// That of B.
    pub b: Listed<'a>,
}

/// The listings of a module's hunks, one after the other; `None` where the text is no module.
pub fn listing_of(alloc: Global, text: &[u8]) -> Result<Option<Vec<u8>>, AllocError> {
    if text.len() >= TOO_LONG {
        return Ok(None);
    }
    let Ok(module) = read_module(alloc, text) else {
        return Ok(None);
    };
    let mut listing = TextSink::new(alloc);
    for hunk in module.hunks.as_slice() {
        if hunk.words.as_slice().len() < TOO_LONG && disassemble(hunk, 1, &mut listing).is_err() {
            return Err(AllocError);
        }
    }
    Ok(Some(listing.bytes))
}

/// The first lines in which two texts differ. Of a listing, its offsets and the heads of its hunks are no difference.
pub fn first_other_line<'a>(a: &'a [u8], b: &'a [u8], is_listing: bool) -> OtherLines<'a> {
    let mut own = a;
    let mut other = b;
    let mut number = 0u64;
    for _ in 0..a.len().saturating_add(b.len()) {
        number = number.saturating_add(1);
        let (x, left) = next_line(own, is_listing);
        let (y, right) = next_line(other, is_listing);
        let are_same = if is_listing {
            x.words() == y.words()
        } else {
            x.text == y.text
        };
        if !are_same || x.text.is_empty() && left.is_empty() && right.is_empty() {
            return OtherLines { number, a: x, b: y };
        }
        own = left;
        other = right;
    }
    let none = Listed { text: &[] };
    OtherLines {
        number,
        a: none,
        b: none,
    }
}

// The next line, and what comes after it. The heads of hunks are passed over.
fn next_line(text: &[u8], is_listing: bool) -> (Listed<'_>, &[u8]) {
    let mut rest = text;
    for _ in 0..text.len() {
        let Some((line, others)) = split_line(rest) else {
            break;
        };
        rest = others;
        if !is_listing || !line.starts_with(b"HUNK ") {
            return (Listed { text: line }, rest);
        }
    }
    (Listed { text: &[] }, rest)
}
