// The answers to places.
ghost use Rattle.std.specs.Prelude.{◌≡◌, ◌++◌, IfOk, OnOk};
ghost use Rattle.std.specs.List.{flat_map};
ghost use Rattle.tool_texts.specs.Told.{told_of};
ghost use Rattle.program_places.specs.Answers.{absent_text, address_text, answer_of, answer_places, answer_to, front_of, front_text, line_text, lines_text, told_text};

use crate::addresses::addresses_of;
use crate::lines::{LineFound, line_in, push_place};
use crate::loaded::LoadedHunk;
use crate::maps::ProgramMap;
use crate::requests::Request;
use module_text::any_number;
use std::alloc::{AllocError, Global};
use tool_bundles::Entry;
use tool_texts::Said::{Bytes, Number};
use tool_texts::{ToolText, push_sentence};

/// The answers to the places that are asked for. Where some place is in no program, they come after a line with the status 1 and a line for each
/// such place.
pub fn answer_places(
    alloc: Global,
    request: &Request,
    map: &ProgramMap,
    loaded: &[LoadedHunk],
) -> Result<ToolText, AllocError>
    ensures { IfOk result (λ t. told_of t ≡ answer_places request.now map.now loaded.now) }
{
    let path = request.map_path.bytes();
    let places = request.places.as_slice();
    answer_to(alloc, path, map, loaded, places.len() == 1, places)
}

// The answers to these places, of which one may be alone.
fn answer_to(
    alloc: Global,
    path: &[u8],
    map: &ProgramMap,
    loaded: &[LoadedHunk],
    is_alone: bool,
    places: &[Entry],
) -> Result<ToolText, AllocError>
    ensures { IfOk result (λ t. told_of t ≡ answer_to path.now map.now loaded.now is_alone places.now) }
{
    let mut absent = Vec::new(alloc);
    let mut found = Vec::new(alloc);
    for entry in places {
        let place = entry.word.bytes();
        let answer = answer_of(alloc, map, loaded, front_of(is_alone, place), place)?;
        push_absent(&mut absent, path, place, answer.as_slice())?;
        found.extend_from_slice(answer.as_slice())?;
    }
    told_text(alloc, absent, found)
}

// What comes before each line of the answer to a place: nothing, where that is alone.
fn front_of(is_alone: bool, place: &[u8]) -> &[u8]
    ensures { result.now ≡ front_of is_alone place.now }
{
    if is_alone { b"" } else { place }
}

// What the tool gives.
fn told_text(alloc: Global, absent: Vec<u8>, found: Vec<u8>) -> Result<ToolText, AllocError>
    ensures { IfOk result (λ t. told_of t ≡ told_text absent.items found.items) }
{
    if absent.as_slice().is_empty() {
        return Ok(ToolText {
            is_wrong: false,
            bytes: found,
        });
    }
    let mut bytes = Vec::new(alloc);
    push_sentence(
        &mut bytes,
        &[
            Bytes(b"* 1\n"),
            Bytes(absent.as_slice()),
            Bytes(found.as_slice()),
        ],
    )?;
    Ok(ToolText {
        is_wrong: true,
        bytes,
    })
}

// Adds that a place is in no program of the map at this path, if the answer to it is empty.
fn push_absent<'t>(
    text: &mut Vec<u8>,
    path: &'t [u8],
    place: &'t [u8],
    answer: &[u8],
) -> Result<(), AllocError>
    ensures { OnOk result (text.new.items
        ≡ text.old.items ++ absent_text path.now place.now answer.now) }
{
    if !answer.is_empty() {
        return Ok(());
    }
    push_sentence(
        text,
        &[
            Bytes(b"where: no program of "),
            Bytes(path),
            Bytes(b" that is loaded has "),
            Bytes(place),
            Bytes(b"\n"),
        ],
    )
}

// The lines of the answer to a place, each after this and a blank where it is not empty.
fn answer_of(
    alloc: Global,
    map: &ProgramMap,
    loaded: &[LoadedHunk],
    front: &[u8],
    place: &[u8],
) -> Result<Vec<u8>, AllocError>
    ensures { IfOk result (λ v. v.items ≡ answer_of map.now loaded.now front.now place.now) }
{
    match any_number(place) {
        Some(address) => lines_text(alloc, map, loaded, front, address),
        None => {
            let addresses = addresses_of(alloc, map, loaded, place)?;
            addresses_text(alloc, front, addresses.as_slice())
        }
    }
}

// The lines at a byte address.
fn lines_text(
    alloc: Global,
    map: &ProgramMap,
    loaded: &[LoadedHunk],
    front: &[u8],
    address: u64,
) -> Result<Vec<u8>, AllocError>
    ensures { IfOk result (λ v. v.items ≡ lines_text map.now front.now address loaded.now) }
{
    let mut text = Vec::new(alloc);
    for hunk in loaded {
        push_line(&mut text, front, &line_in(map, *hunk, address))?;
    }
    Ok(text)
}

// Adds a line, if one was found.
fn push_line(text: &mut Vec<u8>, front: &[u8], found: &Option<LineFound>) -> Result<(), AllocError>
    ensures { OnOk result (text.new.items ≡ text.old.items ++ line_text front.now found.now) }
{
    match found {
        Some(found) => {
            push_front(text, front)?;
            push_place(text, found)?;
            push_sentence(text, &[Bytes(b"\n")])
        }
        None => Ok(()),
    }
}

// A line for each of these addresses.
fn addresses_text(alloc: Global, front: &[u8], addresses: &[u64]) -> Result<Vec<u8>, AllocError>
    ensures { IfOk result (λ v. v.items ≡ flat_map (address_text front.now) addresses.now) }
{
    let mut text = Vec::new(alloc);
    for address in addresses {
        push_address(&mut text, front, *address)?;
    }
    Ok(text)
}

fn push_address(text: &mut Vec<u8>, front: &[u8], address: u64) -> Result<(), AllocError>
    ensures { OnOk result (text.new.items ≡ text.old.items ++ address_text front.now address) }
{
    push_front(text, front)?;
    push_sentence(text, &[Number(address), Bytes(b"\n")])
}

// Adds what comes before each line of an answer, and a blank, unless it is empty.
fn push_front(text: &mut Vec<u8>, front: &[u8]) -> Result<(), AllocError>
    ensures { OnOk result (text.new.items ≡ text.old.items ++ front_text front.now) }
{
    if front.is_empty() {
        return Ok(());
    }
    push_sentence(text, &[Bytes(front), Bytes(b" ")])
}
