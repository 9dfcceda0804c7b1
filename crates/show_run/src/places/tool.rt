// The places of a bundle, in words.
ghost use Rattle.std.specs.Prelude.{◌≡◌, ◌<◌, ◌^◌, length};

use crate::no_machines::{TOO_LONG, no_boot, refused};
use crate::places::hunks::find_hunks;
use crate::places::sessions::{DebugEnd, debugged_machine};
use module_text::TextEnd;
use program_places::answers::answer_places;
use program_places::loaded::{LoadedHunk, is_placed, placed_hunks};
use program_places::maps::ProgramMap;
use program_places::reading::read_map;
use program_places::requests::{Request, request_of};
use program_places::wrongs::{Wrong, wrong_text};
use std::alloc::{AllocError, Global};
use tool_bundles::{BundleEnd, read_bundle};
use tool_texts::ToolText;

/// The places that a bundle asks for: its words are the path of a session, that of its map, that of lines of the debugger or `-`, and then each
/// place. The session is run by the lines, or by `CONT`, unless the map says where its programs are. Where one place is asked for, a line of
/// the answer is the line of assembly at a byte address, or the byte address of a label or a line; where there are more, the place and a blank
/// come before it. A place that is in no program is wrong, and so are a map, a session and a line that are refused, and a bundle of other words.
pub(crate) fn places_text(alloc: Global, bundle: &[u8]) -> Result<ToolText, AllocError> {
    let entries = match read_bundle(alloc, bundle) {
        Ok(entries) => entries,
        Err(BundleEnd::NoBundle) => return wrong_text(alloc, Wrong::NoBundle),
        Err(BundleEnd::WantMemory) => return Err(AllocError),
    };
    match request_of(entries.as_slice()) {
        Some(request) => answer_request(alloc, &request),
        None => wrong_text(alloc, Wrong::NoBundle),
    }
}

// The places that are asked for, where the map is read.
fn answer_request(alloc: Global, request: &Request) -> Result<ToolText, AllocError> {
    let text = request.map.bytes();
    if text.len() >= TOO_LONG {
        return Err(AllocError);
    }
    match read_map(alloc, text) {
        Ok(map) => answer_by_map(alloc, request, &map),
        Err(TextEnd::Bad { line, code }) => {
            let path = request.map_path.again();
            wrong_text(alloc, Wrong::BadMap { path, line, code })
        }
        Err(TextEnd::WantMemory) => Err(AllocError),
    }
}

// The same, by the map.
fn answer_by_map(
    alloc: Global,
    request: &Request,
    map: &ProgramMap,
) -> Result<ToolText, AllocError> {
    match loaded_hunks(alloc, request, map) {
        Ok(loaded) => answer_places(alloc, request, map, loaded.as_slice()),
        Err(DebugEnd::Refused { line, code }) => refused(alloc, line, code),
        Err(DebugEnd::NoBoot { line, code }) => no_boot(alloc, line, code),
        Err(DebugEnd::WantMemory) => Err(AllocError),
    }
}

// Where the hunks of the map are loaded, once the session is run.
fn loaded_hunks(
    alloc: Global,
    request: &Request,
    map: &ProgramMap,
) -> Result<Vec<LoadedHunk>, DebugEnd> {
    if is_placed(map) {
        return Ok(placed_hunks(alloc, map)?);
    }
    let text = session_text(alloc, request)?;
    if text.as_slice().len() >= TOO_LONG {
        return Err(DebugEnd::WantMemory);
    }
    let machine = debugged_machine(alloc, text.as_slice())?;
    Ok(find_hunks(alloc, map, &machine)?)
}

// The session, and after it the lines of the debugger.
fn session_text(alloc: Global, request: &Request) -> Result<Vec<u8>, AllocError> {
    let mut text = Vec::new(alloc);
    text.extend_from_slice(request.session.bytes())?;
    text.extend_from_slice(request.lines.bytes())?;
    Ok(text)
}
