// What a line gives to the hunk.
ghost use Rattle.std.specs.Prelude.{◌≡◌, ◌≤◌, ◌<◌, ◌+◌, ◌*◌, ◌^◌, ◌++◌, length, IfOk};
ghost use Rattle.assembly.specs.AssemblyText.KeptLabels.{table_of};
ghost use Rattle.assembly.specs.AssemblyText.Pieces.{address, distance, found, global_pair, half_distance, indirect, piece_of, plain, relative, reserved, word_address, zeros};

use crate::assembly_text::LineError;
use crate::assembly_text::labels::Label;
use crate::assembly_text::places::{Place, rounded_up};
use crate::assembly_text::statements::{Boundary, LineBytes, Statement};
use crate::assembly_text::tables::look_up;
use std::collections::BTreeMap;

/// What a line gives to the hunk.
#[derive(Drop)]
pub struct Piece {
    /// The bytes from the end of the line before.
    pub bytes: LineBytes,
    /// The offset, in words, of a word to be relocated.
    pub relocation: Option<u32>,
    /// A global's number and its value.
    pub pair: Option<(u32, u32)>,
}

/// What the line gives at its offset. Its error is `UndefinedLabel` or `OutOfReach`.
#[tactic(auto, unfolding(crate::specs::AssemblyText::Pieces::piece_of))]
pub fn piece_of(
    labels: &BTreeMap<&[u8], Place>,
    offset: u32,
    statement: &Statement,
) -> Result<Piece, LineError>
    requires { offset < 2 ^ 30 }
    ensures { result ≡ piece_of (table_of labels.now) offset statement.now }
{
    match statement {
        Statement::Fixed(bytes) => Ok(plain(bytes.as_slice(), &[])),
        Statement::Relative { byte, label } => relative(labels, offset, *byte, label),
        Statement::Indirect { byte, label } => indirect(labels, offset, *byte, label),
        Statement::Reserve(label) => reserved(labels, offset, label),
        Statement::Address(label) => address(labels, offset, label),
        Statement::Align(boundary) => {
            let end = rounded_up(*boundary, offset);
            Ok(plain(zeros(offset, end), &[]))
        }
        Statement::Global { number, label } => global_pair(labels, *number, label),
    }
}

// These bytes alone.
fn plain(front: &[u8], back: &[u8]) -> Piece
    requires { length front.now + length back.now ≤ 8 }
    ensures { result ≡ plain (front.now ++ back.now) }
{
    Piece {
        bytes: LineBytes::new(front, back),
        relocation: None,
        pair: None,
    }
}

// The zero bytes from an offset to another, of which there are at most three.
fn zeros(from: u32, to: u32) -> &'static [u8]
    requires order { from ≤ to }
    requires few { to ≤ from + 3 }
    ensures value { result.now ≡ zeros from to }
    ensures few { length result.now ≤ 3 }
{
    match to - from {
        0 => &[],
        1 => &[0],
        2 => &[0, 0],
        _ => &[0, 0, 0],
    }
}

// The place of a label.
fn found(labels: &BTreeMap<&[u8], Place>, label: &Label) -> Result<Place, LineError>
    ensures { result ≡ found (table_of labels.now) label.now }
{
    look_up(labels, label.name()).ok_or(LineError::UndefinedLabel)
}

// The distance from an offset to another, which is from -half to half - 1. A negative one has twice half added.
fn distance(half: u32, from: u32, to: u32) -> Result<u32, LineError>
    requires near { from < 2 ^ 31 }
    requires half { half ≤ 32768 }
    requires some { 0 < half }
    ensures value { result ≡ distance half from to }
    ensures small { IfOk result (λ d. d < 2 * half) }
{
    let (wide, from, to) = (u64::from(half), u64::from(from), u64::from(to));
    if from <= to + wide && to < from + wide {
        Ok(((to + 2 * wide - from) % (2 * wide)) as u32)
    } else {
        Err(LineError::OutOfReach)
    }
}

// Half the distance from the even offset at or before the operand byte to a reserved halfword, which is from 0 to 255.
fn half_distance(from: u32, place: Place) -> Result<u8, LineError>
    ensures { result ≡ half_distance from place }
{
    let even = from / 2 * 2;
    if !place.is_reserve || place.offset < even {
        return Err(LineError::OutOfReach);
    }
    let half = (place.offset - even) / 2;
    if half <= 255 {
        Ok(half as u8)
    } else {
        Err(LineError::OutOfReach)
    }
}

// An address in words, of a label on a word boundary.
fn word_address(place: Place) -> Result<u32, LineError>
    ensures { result ≡ word_address place }
{
    if place.offset % 4 == 0 {
        Ok(place.offset / 4)
    } else {
        Err(LineError::OutOfReach)
    }
}

fn relative(
    labels: &BTreeMap<&[u8], Place>,
    offset: u32,
    byte: u8,
    label: &Label,
) -> Result<Piece, LineError>
    requires { offset < 2 ^ 30 }
    ensures { result ≡ relative (table_of labels.now) offset byte label.now }
{
    let place = found(labels, label)?;
    let operand = distance(128, offset + 1, place.offset)?;
    Ok(plain(&[byte, operand as u8], &[]))
}

fn indirect(
    labels: &BTreeMap<&[u8], Place>,
    offset: u32,
    byte: u8,
    label: &Label,
) -> Result<Piece, LineError>
    requires { offset < 2 ^ 30 }
    ensures { result ≡ indirect (table_of labels.now) offset byte label.now }
{
    let place = found(labels, label)?;
    let operand = half_distance(offset + 1, place)?;
    Ok(plain(&[byte, operand], &[]))
}

fn reserved(labels: &BTreeMap<&[u8], Place>, offset: u32, label: &Label) -> Result<Piece, LineError>
    requires { offset < 2 ^ 30 }
    ensures { result ≡ reserved (table_of labels.now) offset label.now }
{
    let place = found(labels, label)?;
    let begin = rounded_up(Boundary::Half, offset);
    let half = distance(32_768, begin, place.offset)?;
    Ok(plain(zeros(offset, begin), &(half as u16).to_le_bytes()))
}

fn address(labels: &BTreeMap<&[u8], Place>, offset: u32, label: &Label) -> Result<Piece, LineError>
    requires { offset < 2 ^ 30 }
    ensures { result ≡ address (table_of labels.now) offset label.now }
{
    let place = found(labels, label)?;
    let word = word_address(place)?;
    let begin = rounded_up(Boundary::Word, offset);
    Ok(Piece {
        bytes: LineBytes::new(zeros(offset, begin), &word.to_le_bytes()),
        relocation: Some(begin / 4),
        pair: None,
    })
}

fn global_pair(
    labels: &BTreeMap<&[u8], Place>,
    number: u32,
    label: &Label,
) -> Result<Piece, LineError>
    ensures { result ≡ global_pair (table_of labels.now) number label.now }
{
    let place = found(labels, label)?;
    Ok(Piece {
        bytes: LineBytes::new(&[], &[]),
        relocation: None,
        pair: Some((number, place.offset)),
    })
}
