// A picture that is drawn from top to bottom.

use crate::elements::{
    Piece, Point, at, begin_box, push_box, push_line, push_moved, push_number, push_pieces,
    push_text,
};
use crate::forms::Form;
use crate::lanes::Lane;
use crate::legend::{STYLE, push_legend};
use crate::lengths::Length;
use crate::parties::Party;
use crate::places::{Places, places_of};
use crate::rows::Row;
use crate::states::State;
use crate::texts::without_blanks;
use crate::wrapping::{INDENT, wrapped};
use std::alloc::{AllocError, Global};

/// How far the first page of paper reaches, in pixels.
const FIRST_PAGE: u64 = 1060;

/// How high each other page is, in pixels.
const PAGE: u64 = 1040;

/// The least letters that go on a line of a name.
const LEAST_NAME: usize = 4;

/// What is drawn so far.
#[derive(Drop)]
pub struct Picture {
    /// Where memory comes from.
    pub alloc: Global,
    /// How it is to be drawn.
    pub form: Form,
    /// Where things are, from left to right.
    pub places: Places,
    /// The lanes, from left to right.
    pub lanes: Vec<Lane>,
    /// How far down it reaches.
    pub y: Length,
    /// How far down the page of paper reaches.
    pub page_end: Length,
    /// The elements.
    pub below: Vec<u8>,
    /// The elements that are over all lanes.
    pub above: Vec<u8>,
    /// The boxes that say where the row of a step is.
    pub spots: Vec<u8>,
}

impl Picture {
    /// A picture of lanes, with its title where it is a file, and with the head of the lanes.
    pub fn new(
        alloc: Global,
        form: Form,
        lanes: Vec<Lane>,
        title: &[u8],
    ) -> Result<Picture, AllocError> {
        let places = places_of(&form, lanes.len() as u64);
        let mut picture = Picture {
            alloc,
            form,
            places,
            lanes,
            y: Length::pixels(8),
            page_end: Length::pixels(FIRST_PAGE),
            below: Vec::new(alloc),
            above: Vec::new(alloc),
            spots: Vec::new(alloc),
        };
        picture.places.place(picture.lanes.as_mut_slice());
        if !form.is_part {
            let place = at(Length::pixels(8), Length::pixels(20));
            push_text(&mut picture.below, place, title, b"title")?;
            picture.y = Length::pixels(30);
        }
        Ok(picture)
    }

    /// Draws the head of the lanes: their numbers, their names and their priorities.
    pub fn draw_head(&mut self) -> Result<(), AllocError> {
        let y = self.y + Length::pixels(10);
        push_text(
            &mut self.below,
            at(Length::pixels(44), y),
            b"step",
            b"small end",
        )?;
        let most = (self.places.spacing.count_of(Length::pixels(5)) as usize).max(LEAST_NAME);
        let mut deepest = 0u64;
        for lane in self.lanes.as_slice() {
            let deep = push_head(self.alloc, &mut self.below, lane, y, most)?;
            deepest = deepest.max(deep);
        }
        self.y = self.y + Length::pixels(18) + Length::pixels(9).times(deepest);
        let right = Length::pixels(self.places.width) - Length::pixels(8);
        push_line(
            &mut self.below,
            at(Length::pixels(8), self.y),
            at(right, self.y),
            b"rule",
        )?;
        for lane in self.lanes.iter_mut() {
            lane.drawn = self.y;
        }
        self.y = self.y + Length::pixels(4);
        Ok(())
    }

    /// Draws all lanes down to here.
    pub fn draw_lanes(&mut self, to: Length) -> Result<(), AllocError> {
        for lane in self.lanes.iter_mut() {
            draw_lane(&mut self.below, lane, to)?;
        }
        Ok(())
    }

    /// Leaves the lanes out down to here.
    pub fn pass_lanes(&mut self, to: Length) {
        for lane in self.lanes.iter_mut() {
            lane.drawn = to;
        }
    }

    /// Begins a new page of paper, where something so high does not go on this one.
    pub fn make_room(&mut self, height: Length) -> Result<(), AllocError> {
        if self.form.is_part || self.y + height <= self.page_end {
            return Ok(());
        }
        self.draw_lanes(self.y)?;
        self.y = self.y + Length::pixels(16);
        self.page_end = self.y + Length::pixels(PAGE);
        self.draw_head()
    }

    /// Notes where the row of a step is: from here on, so high.
    pub fn note_row(&mut self, row: &Row, top: Length, height: Length) -> Result<(), AllocError> {
        if !self.form.is_part {
            return Ok(());
        }
        let corner = at(Length::pixels(4), top - Length::pixels(1));
        let right = Length::pixels(self.places.width) - Length::pixels(8);
        begin_box(
            &mut self.spots,
            corner,
            at(right, height + Length::pixels(2)),
        )?;
        push_pieces(
            &mut self.spots,
            &[
                Piece::Plain(b" class=\"spot\" data-step=\""),
                Piece::Whole(row.step),
                Piece::Plain(b"\"><title>Step "),
                Piece::Whole(row.step),
            ],
        )?;
        for (place, saying) in row.sayings.iter().enumerate() {
            let before: &[u8] = if place == 0 { b": " } else { b"; " };
            push_pieces(
                &mut self.spots,
                &[Piece::Plain(before), Piece::Text(saying.text.as_slice())],
            )?;
        }
        push_pieces(&mut self.spots, &[Piece::Plain(b"</title></rect>\n")])
    }

    /// Draws the lanes to their end, and says why the machine has stopped.
    pub fn end(&mut self, words: &[u8]) -> Result<(), AllocError> {
        self.draw_lanes(self.y)?;
        if words.is_empty() {
            return Ok(());
        }
        self.y = self.y + Length::pixels(4);
        let lines = wrapped(self.alloc, words, self.places.columns)?;
        for (place, line) in lines.iter().enumerate() {
            let before = indent_at(place);
            let y = self.y + Length::pixels(9);
            push_moved(
                &mut self.below,
                at(self.places.text_x, y),
                before,
                line,
                b"words",
            )?;
            self.y = self.y + Length::pixels(11);
        }
        self.y = self.y + Length::pixels(1);
        Ok(())
    }

    /// The whole picture, with its legend.
    pub fn finish(self) -> Result<Vec<u8>, AllocError> {
        let mut picture = self;
        picture.draw_legend()?;
        let mut svg = Vec::new(picture.alloc);
        if picture.form.is_part {
            push_part_head(
                &mut svg,
                picture.places.width,
                picture.y + Length::pixels(6),
            )?;
        } else {
            push_file_head(&mut svg, picture.places.width, picture.y)?;
        }
        svg.extend_from_slice(picture.below.as_slice())?;
        svg.extend_from_slice(picture.spots.as_slice())?;
        svg.extend_from_slice(b"</svg>\n")?;
        Ok(svg)
    }

    // Draws the legend, after all that is over the lanes.
    fn draw_legend(&mut self) -> Result<(), AllocError> {
        self.below.append(&mut self.above)?;
        let y = self.y + Length::pixels(10);
        let right = Length::pixels(self.places.width) - Length::pixels(8);
        push_line(
            &mut self.below,
            at(Length::pixels(8), y),
            at(right, y),
            b"rule",
        )?;
        let last = push_legend(&mut self.below, self.places.width, y + Length::pixels(14))?;
        self.y = last + Length::pixels(10);
        Ok(())
    }
}

/// What is before the words of a line, by the number of lines before it.
pub fn indent_at(place: usize) -> &'static [u8] {
    if place == 0 { b"" } else { INDENT }
}

// Draws the head of a lane. The answer is how many lines it has below its number.
fn push_head(
    alloc: Global,
    svg: &mut Vec<u8>,
    lane: &Lane,
    y: Length,
    most: usize,
) -> Result<u64, AllocError> {
    let place = at(lane.x, y);
    match lane.party {
        Party::Clock => push_text(svg, place, b"clock", b"head")?,
        Party::Keyboard => push_text(svg, place, b"keys", b"head")?,
        Party::Output => push_text(svg, place, b"output", b"head")?,
        Party::Task(number) => {
            push_number(svg, place, b"", number, b"head")?;
            return push_name(alloc, svg, lane, y, most);
        }
    }
    Ok(0)
}

// Draws the name and the priority of a lane.
fn push_name(
    alloc: Global,
    svg: &mut Vec<u8>,
    lane: &Lane,
    y: Length,
    most: usize,
) -> Result<u64, AllocError> {
    let name = parted(alloc, lane.names.as_slice(), most)?;
    let lines = wrapped(alloc, name.as_slice(), most)?;
    let mut y = y + Length::pixels(1);
    for line in lines.as_slice() {
        y = y + Length::pixels(9);
        push_text(svg, at(lane.x, y), without_blanks(line), b"name")?;
    }
    if lane.priority > 0 {
        let y = y + Length::pixels(9);
        push_number(svg, at(lane.x, y), b"", lane.priority, b"name")?;
    }
    Ok((lines.len() as u64).saturating_add(1))
}

// A name, with a blank after each hyphen where it does not go on a line.
fn parted(alloc: Global, name: &[u8], most: usize) -> Result<Vec<u8>, AllocError> {
    let mut parts = Vec::new(alloc);
    for byte in name {
        parts.push(*byte)?;
        if *byte == b'-' && name.len() > most {
            parts.push(b' ')?;
        }
    }
    Ok(parts)
}

/// Draws a lane from where it is drawn down to here, in its state.
pub fn draw_lane(svg: &mut Vec<u8>, lane: &mut Lane, to: Length) -> Result<(), AllocError> {
    let from = lane.drawn;
    let height = to - from;
    if height < Length::tenths(1) {
        return Ok(());
    }
    lane.drawn = to;
    let begin = at(lane.x, from);
    if !lane.party.is_task() {
        return push_line(svg, begin, at(lane.x, to), b"device");
    }
    match lane.state {
        State::Dead => Ok(()),
        State::Waits => push_line(svg, begin, at(lane.x, to), b"wait"),
        State::Runs => push_beam(svg, begin, 50, height, b"run"),
        State::Ready => push_beam(svg, begin, 35, height, b"ready"),
        State::Held => push_beam(svg, begin, 35, height, b"held"),
    }
}

// Draws a beam, so many tenths of a pixel to both sides.
fn push_beam(
    svg: &mut Vec<u8>,
    begin: Point,
    half: u64,
    height: Length,
    look: &[u8],
) -> Result<(), AllocError> {
    let half = Length::tenths(half);
    push_box(
        svg,
        at(begin.x - half, begin.y),
        at(half.times(2), height),
        look,
    )
}

// The beginning of a picture that is a file.
fn push_file_head(svg: &mut Vec<u8>, width: u64, height: Length) -> Result<(), AllocError> {
    let shown = Length::tenths(height.in_tenths());
    push_pieces(
        svg,
        &[
            Piece::Plain(
                b"<svg xmlns=\"http://www.w3.org/2000/svg\" xml:space=\"preserve\" width=\"190mm\" height=\"",
            ),
            Piece::Pixels(shown.part(4)),
            Piece::Plain(b"mm\" viewBox=\"0 0 "),
            Piece::Whole(width),
            Piece::Plain(b" "),
            Piece::Pixels(shown),
            Piece::Plain(b"\">\n<rect x=\"0\" y=\"0\" width=\""),
            Piece::Whole(width),
            Piece::Plain(b"\" height=\""),
            Piece::Pixels(shown),
            Piece::Plain(b"\" fill=\"#fff\"/>\n"),
            Piece::Plain(STYLE),
        ],
    )
}

// The beginning of a picture that is a part of a document, with a box for its cursor.
fn push_part_head(svg: &mut Vec<u8>, width: u64, height: Length) -> Result<(), AllocError> {
    push_pieces(
        svg,
        &[
            Piece::Plain(b"<svg xmlns=\"http://www.w3.org/2000/svg\" viewBox=\"0 0 "),
            Piece::Whole(width),
            Piece::Plain(b" "),
            Piece::Pixels(height),
            Piece::Plain(
                b"\" class=\"picture\" role=\"img\" aria-label=\"The run as a picture; the list of what happened says the same in words\">\n<rect x=\"4\" y=\"-20\" width=\"",
            ),
            Piece::Whole(width.saturating_sub(8)),
            Piece::Plain(b"\" height=\"12\" class=\"cursor\"/>\n"),
        ],
    )
}
