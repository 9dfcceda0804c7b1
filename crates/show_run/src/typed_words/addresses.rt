// Byte addresses, lines of assembly, and labels.

use crate::places::hunks::find_hunks;
use crate::typed_words::assembly_lines::line_of;
use crate::typed_words::cases::Case;
use crate::typed_words::fields::trimmed;
use crate::typed_words::registers::is_address;
use crate::typed_words::sentences::push_said;
use program_places::{LineFound, addresses_of, line_at, line_in, push_place};
use std::alloc::{AllocError, Global};
use tool_texts::Said::{Bytes, Number};
use tool_texts::push_sentence;
use tripos_machine::Machine;

/// Adds the line of assembly at a byte address, if there is a map that has it: its place, and the line as it is in its file.
pub fn push_line_at(
    alloc: Global,
    case: &Case,
    machine: &Machine,
    address: u64,
    text: &mut Vec<u8>,
) -> Result<(), AllocError> {
    let Some(map) = &case.map else {
        return Ok(());
    };
    let loaded = find_hunks(alloc, map, machine)?;
    for place in loaded.as_slice() {
        if let Some(found) = line_in(map, *place, address) {
            push_found(text, &found)?;
        }
    }
    match line_at(map, loaded.as_slice(), address) {
        Some(found) => push_line(case, &found, text),
        None => Ok(()),
    }
}

// Adds a place on a line of its own.
fn push_found(text: &mut Vec<u8>, found: &LineFound) -> Result<(), AllocError> {
    push_sentence(text, &[Bytes(b"  ")])?;
    push_place(text, found)?;
    push_sentence(text, &[Bytes(b"\n")])
}

// Adds the line at a place, as it is in its file.
fn push_line(case: &Case, found: &LineFound, text: &mut Vec<u8>) -> Result<(), AllocError> {
    let line = line_of_file(case, found.file.bytes(), found.number);
    if line.is_empty() {
        return Ok(());
    }
    push_sentence(text, &[Bytes(b"      "), Bytes(line), Bytes(b"\n")])
}

/// Adds the place of the line of assembly at a byte address, if there is a map that has it.
pub fn push_place_at(
    alloc: Global,
    case: &Case,
    machine: &Machine,
    address: u64,
    text: &mut Vec<u8>,
) -> Result<(), AllocError> {
    let Some(map) = &case.map else {
        return Ok(());
    };
    let loaded = find_hunks(alloc, map, machine)?;
    match line_at(map, loaded.as_slice(), address) {
        Some(found) => push_found(text, &found),
        None => Ok(()),
    }
}

/// The line of assembly at a byte address, as it is in its file, without the blanks at its ends; nothing where there is none.
pub fn assembly_at<'a>(
    alloc: Global,
    case: &Case<'a>,
    machine: &Machine,
    address: u64,
) -> Result<&'a [u8], AllocError> {
    let Some(map) = &case.map else {
        return Ok(&[]);
    };
    let loaded = find_hunks(alloc, map, machine)?;
    match line_at(map, loaded.as_slice(), address) {
        Some(found) => Ok(line_of_file(case, found.file.bytes(), found.number)),
        None => Ok(&[]),
    }
}

// A line of a source file, without the blanks at its ends; nothing where the file was not read, or has no such line.
fn line_of_file<'a>(case: &Case<'a>, file: &[u8], number: u64) -> &'a [u8] {
    for entry in case.sources.as_slice() {
        if entry.word.bytes() == file {
            return match entry.file() {
                Some(bytes) => trimmed(line_of(bytes.bytes(), number)),
                None => &[],
            };
        }
    }
    &[]
}

/// The byte addresses of a place that is written in no digits. Where there are none, this is said, and the list is empty.
pub fn addresses_named(
    alloc: Global,
    case: &Case,
    machine: &Machine,
    place: &[u8],
    text: &mut Vec<u8>,
) -> Result<Vec<u64>, AllocError> {
    let Some(map) = &case.map else {
        push_said(
            text,
            &[
                Bytes(place),
                Bytes(b" is no byte address, and there is no map that has labels"),
            ],
        )?;
        return Ok(Vec::new(alloc));
    };
    let loaded = find_hunks(alloc, map, machine)?;
    let addresses = addresses_of(alloc, map, loaded.as_slice(), place)?;
    if addresses.is_empty() {
        push_said(
            text,
            &[Bytes(b"no program that is loaded has "), Bytes(place)],
        )?;
    }
    Ok(addresses)
}

/// The digits of the byte address of a place. Where there is none, or more than one, this is said.
pub fn address_digits(
    alloc: Global,
    case: &Case,
    machine: &Machine,
    place: &[u8],
    text: &mut Vec<u8>,
) -> Result<Option<Vec<u8>>, AllocError> {
    if is_address(place) {
        return Ok(Some(Vec::from_slice(alloc, place)?));
    }
    let addresses = addresses_named(alloc, case, machine, place, text)?;
    match addresses.as_slice() {
        [] => Ok(None),
        [address] => Ok(Some(digits_of(alloc, *address)?)),
        several => {
            push_several(text, place, several)?;
            Ok(None)
        }
    }
}

/// The decimal digits of a number.
pub fn digits_of(alloc: Global, number: u64) -> Result<Vec<u8>, AllocError> {
    let mut digits = Vec::new(alloc);
    push_sentence(&mut digits, &[Number(number)])?;
    Ok(digits)
}

fn push_several(text: &mut Vec<u8>, place: &[u8], addresses: &[u64]) -> Result<(), AllocError> {
    push_sentence(
        text,
        &[
            Bytes(b"debug: "),
            Bytes(place),
            Bytes(b" is at more than one address:"),
        ],
    )?;
    for address in addresses {
        push_sentence(text, &[Bytes(b" "), Number(*address)])?;
    }
    push_sentence(text, &[Bytes(b"\n")])
}
