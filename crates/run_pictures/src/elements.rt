// The elements of an SVG picture.
ghost use Rattle.std.specs.Prelude.{◌≡◌, ◌++◌, OnOk};
ghost use Rattle.std.specs.List.{flat_map};
ghost use Rattle.run_pictures.specs.Elements.{length_text, piece_text};
ghost use Rattle.run_pictures.specs.Escapes.{escaped, escaped_letter};

use crate::lengths::Length;
use std::alloc::AllocError;
use tool_texts::Said::{Bytes, Number};
use tool_texts::push_sentence;

/// A point of a picture.
#[derive(Clone, Copy)]
pub struct Point {
    /// How far it is from the left.
    pub x: Length,
    /// How far it is from the top.
    pub y: Length,
}

/// The point at these places.
pub fn at(x: Length, y: Length) -> Point {
    Point { x, y }
}

/// A part of an element.
#[derive(Clone, Copy)]
pub enum Piece<'a> {
    /// Bytes as they are.
    Plain(&'a [u8]),
    /// Bytes of a text, escaped.
    Text(&'a [u8]),
    /// A number in decimal.
    Whole(u64),
    /// A length in pixels, with one decimal.
    Pixels(Length),
    /// A point: its two lengths, with a blank between them.
    Spot(Point),
}

/// Adds parts of elements to a picture, one after the other.
pub fn push_pieces(svg: &mut Vec<u8>, pieces: &[Piece]) -> Result<(), AllocError>
    ensures { OnOk result (svg.new.items ≡ svg.old.items ++ flat_map piece_text pieces.now) }
{
    for piece in pieces {
        push_piece(svg, *piece)?;
    }
    Ok(())
}

fn push_piece(svg: &mut Vec<u8>, piece: Piece) -> Result<(), AllocError>
    ensures { OnOk result (svg.new.items ≡ svg.old.items ++ piece_text piece.entry) }
{
    match piece {
        Piece::Plain(bytes) => push_sentence(svg, &[Bytes(bytes)]),
        Piece::Text(bytes) => push_escaped(svg, bytes),
        Piece::Whole(number) => push_sentence(svg, &[Number(number)]),
        Piece::Pixels(length) => push_length(svg, length),
        Piece::Spot(point) => {
            push_length(svg, point.x)?;
            push_sentence(svg, &[Bytes(b" ")])?;
            push_length(svg, point.y)
        }
    }
}

// Adds a length in pixels, with one decimal.
fn push_length(svg: &mut Vec<u8>, length: Length) -> Result<(), AllocError>
    ensures { OnOk result (svg.new.items ≡ svg.old.items ++ length_text length.parts) }
{
    let tenths = length.in_tenths();
    push_sentence(
        svg,
        &[Number(tenths / 10), Bytes(b"."), Number(tenths % 10)],
    )
}

/// Adds bytes of a text, escaped.
pub fn push_escaped(svg: &mut Vec<u8>, bytes: &[u8]) -> Result<(), AllocError>
    ensures { OnOk result (svg.new.items ≡ svg.old.items ++ escaped bytes.now) }
{
    for byte in bytes {
        push_letter(svg, *byte)?;
    }
    Ok(())
}

// Adds a byte of a text, escaped.
fn push_letter(svg: &mut Vec<u8>, byte: u8) -> Result<(), AllocError>
    ensures { OnOk result (svg.new.items ≡ svg.old.items ++ escaped_letter byte) }
{
    match byte {
        b'&' => svg.extend_from_slice(b"&amp;"),
        b'<' => svg.extend_from_slice(b"&lt;"),
        b'>' => svg.extend_from_slice(b"&gt;"),
        _ => svg.extend_from_slice(&[byte]),
    }
}

/// Adds a line of this look.
pub fn push_line(svg: &mut Vec<u8>, from: Point, to: Point, look: &[u8]) -> Result<(), AllocError> {
    push_pieces(
        svg,
        &[
            Piece::Plain(b"<line x1=\""),
            Piece::Pixels(from.x),
            Piece::Plain(b"\" y1=\""),
            Piece::Pixels(from.y),
            Piece::Plain(b"\" x2=\""),
            Piece::Pixels(to.x),
            Piece::Plain(b"\" y2=\""),
            Piece::Pixels(to.y),
            Piece::Plain(b"\" class=\""),
            Piece::Plain(look),
            Piece::Plain(b"\"/>\n"),
        ],
    )
}

/// Adds words of this look, unless there are none.
pub fn push_text(
    svg: &mut Vec<u8>,
    place: Point,
    words: &[u8],
    look: &[u8],
) -> Result<(), AllocError> {
    push_moved(svg, place, b"", words, look)
}

/// The same, where this comes before the words.
pub fn push_moved<'t>(
    svg: &mut Vec<u8>,
    place: Point,
    before: &'t [u8],
    words: &'t [u8],
    look: &[u8],
) -> Result<(), AllocError> {
    if before.is_empty() && words.is_empty() {
        return Ok(());
    }
    begin_text(svg, place, look)?;
    push_pieces(
        svg,
        &[
            Piece::Text(before),
            Piece::Text(words),
            Piece::Plain(b"</text>\n"),
        ],
    )
}

/// Adds a number of this look, after these letters.
pub fn push_number(
    svg: &mut Vec<u8>,
    place: Point,
    before: &[u8],
    number: u64,
    look: &[u8],
) -> Result<(), AllocError> {
    begin_text(svg, place, look)?;
    push_pieces(
        svg,
        &[
            Piece::Text(before),
            Piece::Whole(number),
            Piece::Plain(b"</text>\n"),
        ],
    )
}

// Adds the beginning of a text.
fn begin_text(svg: &mut Vec<u8>, place: Point, look: &[u8]) -> Result<(), AllocError> {
    push_pieces(
        svg,
        &[
            Piece::Plain(b"<text x=\""),
            Piece::Pixels(place.x),
            Piece::Plain(b"\" y=\""),
            Piece::Pixels(place.y),
            Piece::Plain(b"\" class=\""),
            Piece::Plain(look),
            Piece::Plain(b"\">"),
        ],
    )
}

/// Adds a box of this look, whose left upper corner is at a point and which is so far from there to the right and down.
pub fn push_box(
    svg: &mut Vec<u8>,
    corner: Point,
    size: Point,
    look: &[u8],
) -> Result<(), AllocError> {
    begin_box(svg, corner, size)?;
    push_pieces(
        svg,
        &[
            Piece::Plain(b" class=\""),
            Piece::Plain(look),
            Piece::Plain(b"\"/>\n"),
        ],
    )
}

/// Adds the beginning of a box.
pub fn begin_box(svg: &mut Vec<u8>, corner: Point, size: Point) -> Result<(), AllocError> {
    push_pieces(
        svg,
        &[
            Piece::Plain(b"<rect x=\""),
            Piece::Pixels(corner.x),
            Piece::Plain(b"\" y=\""),
            Piece::Pixels(corner.y),
            Piece::Plain(b"\" width=\""),
            Piece::Pixels(size.x),
            Piece::Plain(b"\" height=\""),
            Piece::Pixels(size.y),
            Piece::Plain(b"\""),
        ],
    )
}

/// Adds a shape of this look, which begins at a point and goes on so.
pub fn push_path<'t>(
    svg: &mut Vec<u8>,
    begin: Point,
    way: &'t [u8],
    look: &'t [u8],
) -> Result<(), AllocError> {
    push_pieces(
        svg,
        &[
            Piece::Plain(b"<path d=\"M"),
            Piece::Spot(begin),
            Piece::Plain(b" "),
            Piece::Plain(way),
            Piece::Plain(b"\" class=\""),
            Piece::Plain(look),
            Piece::Plain(b"\"/>\n"),
        ],
    )
}

/// Adds a dot.
pub fn push_dot(svg: &mut Vec<u8>, middle: Point) -> Result<(), AllocError> {
    push_pieces(
        svg,
        &[
            Piece::Plain(b"<circle cx=\""),
            Piece::Pixels(middle.x),
            Piece::Plain(b"\" cy=\""),
            Piece::Pixels(middle.y),
            Piece::Plain(b"\" r=\"2.6\" class=\"dot\"/>\n"),
        ],
    )
}
