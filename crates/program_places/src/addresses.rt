// The addresses of a label or a line.
ghost use Rattle.std.specs.Prelude.{◌≡◌, IfOk};
ghost use Rattle.std.specs.List.{find};
ghost use Rattle.std.specs.Option.{option_copied};
ghost use Rattle.program_places.specs.Addresses.{address_in, addresses_of, after_name, is_decimal, is_label, is_label_of, is_named, place_offset};

use crate::lines::{is_labelled, label_offset};
use crate::loaded::LoadedHunk;
use crate::maps::{MappedHunk, MappedLine, ProgramMap};
use itoa::Buffer;
use module_text::after_word;
use std::alloc::{AllocError, Global};

/// The byte addresses of a place, one in each loaded hunk that has it, in their order. A place is a label, `PROGRAM:LABEL` or `FILE:LINE`.
pub fn addresses_of(
    alloc: Global,
    map: &ProgramMap,
    loaded: &[LoadedHunk],
    place: &[u8],
) -> Result<Vec<u64>, AllocError>
    ensures { IfOk result (λ v. v.items ≡ addresses_of map.now place.now loaded.now) }
{
    let mut addresses = Vec::new(alloc);
    for hunk in loaded {
        if let Some(address) = address_in(map, *hunk, place) {
            addresses.push(address)?;
        }
    }
    Ok(addresses)
}

/// The byte address of a place in a loaded hunk, if the hunk has it.
pub fn address_in(map: &ProgramMap, loaded: LoadedHunk, place: &[u8]) -> Option<u64>
    ensures { result ≡ address_in map.now place.now loaded }
{
    let hunk = map.hunks.as_slice().get(loaded.hunk)?;
    let offset = place_offset(hunk, place)?;
    Some(4 * u64::from(loaded.word) + u64::from(offset))
}

// Where a place is in a hunk: the offset of the first line that it names.
fn place_offset(hunk: &MappedHunk, place: &[u8]) -> Option<u32>
    ensures { result ≡ place_offset place.now hunk.now }
{
    Some(named_line(hunk, place)?.offset)
}

fn named_line<'s, 'a>(hunk: &'s MappedHunk<'a>, place: &[u8]) -> Option<&'s MappedLine<'a>>
    ensures { option_copied result ≡ find (is_named hunk.now place.now) hunk.now.lines }
{
    hunk.lines
        .as_slice()
        .iter()
        .find(|line| is_named(hunk, line, place))
}

// Whether a place names a line of a hunk, or the label on it.
fn is_named(hunk: &MappedHunk, line: &MappedLine, place: &[u8]) -> bool
    ensures { result ≡ is_named hunk.now place.now line.now }
{
    let lines = hunk.lines.as_slice();
    is_decimal(line.number, after_name(hunk.file.bytes(), place))
        || is_label(lines, line, place)
        || is_label_of(lines, line, after_name(hunk.name.bytes(), place))
}

// Whether digits are those that a number is written with, if there are some.
fn is_decimal(number: u64, digits: Option<&[u8]>) -> bool
    ensures { result ≡ is_decimal number (option_copied digits.entry) }
{
    match digits {
        Some(digits) => {
            let mut buffer = Buffer::new();
            digits == buffer.format(number).as_bytes()
        }
        None => false,
    }
}

// What comes after a name and a colon.
fn after_name<'a>(name: &[u8], place: &'a [u8]) -> Option<&'a [u8]>
    ensures { option_copied result ≡ after_name name.now place.now }
{
    after_word(b":", after_word(name, place)?)
}

// Whether this is the label of a line, and the line is at the label.
fn is_label(lines: &[MappedLine], line: &MappedLine, label: &[u8]) -> bool
    ensures { result ≡ is_label lines.now line.now label.now }
{
    if !is_labelled(line, label) {
        return false;
    }
    match label_offset(lines, label) {
        Some(offset) => offset == line.offset,
        None => false,
    }
}

// The same, where there is a label.
fn is_label_of(lines: &[MappedLine], line: &MappedLine, label: Option<&[u8]>) -> bool
    ensures { result ≡ is_label_of lines.now line.now (option_copied label.entry) }
{
    match label {
        Some(label) => is_label(lines, line, label),
        None => false,
    }
}
