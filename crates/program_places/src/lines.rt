// The line of assembly at an address.
ghost use Rattle.std.specs.Prelude.{◌≡◌, ◌++◌, None, OnOk};
ghost use Rattle.std.specs.List.{find};
ghost use Rattle.std.specs.Option.{option_copied};
ghost use Rattle.program_places.specs.Answers.{bytes_after, label_text, place_text};
ghost use Rattle.program_places.specs.Lines.{is_labelled, label_found, label_offset, last_line, line_at, line_away, line_in};

use crate::loaded::LoadedHunk;
use crate::maps::{MappedHunk, MappedLine, ProgramMap};
use std::alloc::AllocError;
use tool_texts::Said::{Bytes, Number};
use tool_texts::{Lent, push_sentence};

/// The line at an address.
#[derive(Drop)]
pub struct LineFound<'a> {
    /// The path of the file.
    pub file: Lent<'a>,
    /// The number of the line, from 1.
    pub number: u64,
    /// The label that is last up to it, if there is one.
    pub label: Option<LabelFound<'a>>,
}

/// The label that is last up to an address.
#[derive(Drop)]
pub struct LabelFound<'a> {
    /// Its name.
    pub name: Lent<'a>,
    /// How many bytes after it the address is.
    pub after: u64,
}

/// The line at a byte address, in the first of the loaded hunks that has one there.
pub fn line_at<'a>(
    map: &ProgramMap<'a>,
    loaded: &[LoadedHunk],
    address: u64,
) -> Option<LineFound<'a>>
    ensures { result ≡ line_at map.now address loaded.now }
{
    for place in loaded {
        if let Some(found) = line_in(map, *place, address) {
            return Some(found);
        }
    }
    None
}

/// The line at a byte address in a loaded hunk: the last one whose bytes do not begin after it. There is none outside the hunk, and before its
/// first line.
pub fn line_in<'a>(map: &ProgramMap<'a>, place: LoadedHunk, address: u64) -> Option<LineFound<'a>>
    ensures { result ≡ line_in map.now address place }
{
    let hunk = map.hunks.as_slice().get(place.hunk)?;
    let away = address.checked_sub(4 * u64::from(place.word))?;
    line_away(hunk, away)
}

// The line at so many bytes from the first of a hunk.
fn line_away<'a>(hunk: &MappedHunk<'a>, away: u64) -> Option<LineFound<'a>>
    ensures { result ≡ line_away away hunk.now }
{
    if away / 4 >= hunk.words.as_slice().len() as u64 {
        return None;
    }
    let lines = hunk.lines.as_slice();
    let line = last_line(lines, away)?;
    Some(LineFound {
        file: hunk.file.again(),
        number: line.number,
        label: label_found(lines, line, away),
    })
}

// The last line that does not begin after so many bytes.
fn last_line<'s, 'a>(lines: &'s [MappedLine<'a>], away: u64) -> Option<&'s MappedLine<'a>>
    ensures { option_copied result ≡ last_line away None lines.now }
{
    let mut found = None;
    for line in lines {
        if u64::from(line.offset) <= away {
            found = Some(line);
        }
    }
    found
}

// The label of a line, and how far it is to so many bytes.
fn label_found<'a>(
    lines: &[MappedLine<'a>],
    line: &MappedLine<'a>,
    away: u64,
) -> Option<LabelFound<'a>>
    ensures { result ≡ label_found lines.now away line.now.label }
{
    let label = line.label.as_ref()?;
    let offset = label_offset(lines, label.bytes())?;
    Some(LabelFound {
        name: label.again(),
        after: away.saturating_sub(u64::from(offset)),
    })
}

/// Where a label is, in bytes from the first of its hunk: the offset of the first line that has it.
pub fn label_offset(lines: &[MappedLine], label: &[u8]) -> Option<u32>
    ensures { result ≡ label_offset label.now lines.now }
{
    Some(labelled_line(lines, label)?.offset)
}

fn labelled_line<'s, 'a>(lines: &'s [MappedLine<'a>], label: &[u8]) -> Option<&'s MappedLine<'a>>
    ensures { option_copied result ≡ find (is_labelled label.now) lines.now }
{
    lines.iter().find(|line| is_labelled(line, label))
}

/// Whether the label that is last up to a line is this one.
pub fn is_labelled(line: &MappedLine, label: &[u8]) -> bool
    ensures { result ≡ is_labelled label.now line.now }
{
    match &line.label {
        Some(own) => own.bytes() == label,
        None => false,
    }
}

/// Adds where a line is, in words: `FILE:LINE`, and where it has a label `, at the label L` or `, N bytes after the label L`.
pub fn push_place(text: &mut Vec<u8>, found: &LineFound) -> Result<(), AllocError>
    ensures { OnOk result (text.new.items ≡ text.old.items ++ place_text found.now) }
{
    push_sentence(
        text,
        &[Bytes(found.file.bytes()), Bytes(b":"), Number(found.number)],
    )?;
    match &found.label {
        Some(label) => push_label(text, label),
        None => Ok(()),
    }
}

fn push_label(text: &mut Vec<u8>, label: &LabelFound) -> Result<(), AllocError>
    ensures { OnOk result (text.new.items ≡ text.old.items ++ label_text label.now) }
{
    if label.after == 0 {
        return push_sentence(
            text,
            &[Bytes(b", at the label "), Bytes(label.name.bytes())],
        );
    }
    push_sentence(
        text,
        &[
            Bytes(b", "),
            Number(label.after),
            Bytes(bytes_after(label.after)),
            Bytes(label.name.bytes()),
        ],
    )
}

fn bytes_after(after: u64) -> &'static [u8]
    ensures { result.now ≡ bytes_after after }
{
    if after == 1 {
        b" byte after the label "
    } else {
        b" bytes after the label "
    }
}
