// Drawing the rows of a story.

use crate::elements::{
    Piece, Point, at, push_dot, push_line, push_moved, push_number, push_path, push_pieces,
    push_text,
};
use crate::forms::Form;
use crate::lanes::{Lane, lane_of};
use crate::lengths::{Length, halvings};
use crate::logs::Log;
use crate::parties::push_party;
use crate::picture::{Picture, draw_lane, indent_at};
use crate::rows::{Arrow, Change, Drawn, Mark, NewPriority, Row};
use crate::states::State;
use crate::story::Story;
use crate::wrapping::wrapped;
use std::alloc::{AllocError, Global};

/// From how many steps on words are between two rows.
const MANY: u64 = 100;

/// A moment between two steps.
#[derive(Clone, Copy)]
struct Moment {
    /// The last step before it.
    step: u64,
    /// The last tick before it.
    tick: u64,
}

/// A line of words beside a row.
#[derive(Clone, Copy)]
struct WordLine<'r> {
    /// What it is moved in by.
    indent: &'static [u8],
    /// The words.
    words: &'r [u8],
    /// Their look.
    look: &'static [u8],
}

/// The picture of a story in this form, as the text of an SVG.
pub fn draw(alloc: Global, form: Form, log: &Log, story: Story) -> Result<Vec<u8>, AllocError> {
    let lanes = story.lanes.into_order()?;
    let mut picture = Picture::new(alloc, form, lanes, log.title)?;
    let rows = story.rows.as_slice();
    let first = (form.first as usize).min(rows.len());
    let (before, rest) = rows.split_at(first);
    for row in before {
        pass_row(picture.lanes.as_mut_slice(), row);
    }
    picture.draw_head()?;
    let count = (form.count as usize).min(rest.len());
    let (shown, after) = rest.split_at(count);
    let mut moment = moment_after(before);
    for (place, row) in shown.iter().enumerate() {
        draw_gap(&mut picture, place == 0, moment.step, row.step, log.period)?;
        draw_row(&mut picture, row, moment.tick, log.period)?;
        moment = Moment {
            step: row.step,
            tick: row.tick,
        };
    }
    if after.is_empty() {
        if log.last.saturating_sub(moment.step) >= MANY {
            draw_gap(
                &mut picture,
                shown.is_empty(),
                moment.step,
                log.last,
                log.period,
            )?;
        }
        picture.end(log.end)?;
    } else {
        picture.end(b"")?;
    }
    picture.finish()
}

// The moment after rows.
fn moment_after(rows: &[Row]) -> Moment {
    match rows.last() {
        Some(row) => Moment {
            step: row.step,
            tick: row.tick,
        },
        None => Moment { step: 0, tick: 0 },
    }
}

// The states and priorities after a row that is not drawn.
fn pass_row(lanes: &mut [Lane], row: &Row) {
    for change in row.changes.as_slice() {
        for lane in lanes.iter_mut().filter(|lane| lane.party == change.party) {
            lane.state = change.state;
        }
    }
    if let Some(new) = row.priority {
        set_priority(lanes, new);
    }
}

fn set_priority(lanes: &mut [Lane], new: NewPriority) {
    for lane in lanes.iter_mut().filter(|lane| lane.party == new.party) {
        lane.priority = new.priority;
    }
}

// Draws the room between two rows, with words where many steps are between them.
fn draw_gap(
    picture: &mut Picture,
    is_first: bool,
    before: u64,
    step: u64,
    period: u64,
) -> Result<(), AllocError> {
    let count = step.saturating_sub(before);
    if is_first {
        picture.y = picture.y + Length::pixels(4);
        return Ok(());
    }
    if count < MANY {
        picture.y = picture.y + halvings(count, 1).times(14).part(10);
        return Ok(());
    }
    let room = Length::pixels(14) + halvings(count, MANY).times(22).part(10);
    let middle = picture.y + room.part(2);
    let below = middle + Length::pixels(3);
    push_quiet(picture, below, before, step, period)?;
    picture.draw_lanes(middle - Length::pixels(3))?;
    picture.pass_lanes(below);
    picture.y = picture.y + room;
    Ok(())
}

// Says what passed between two rows with many steps between them.
fn push_quiet(
    picture: &mut Picture,
    y: Length,
    before: u64,
    step: u64,
    period: u64,
) -> Result<(), AllocError> {
    let period = period.max(1);
    let ticks = (step.saturating_sub(1) / period).saturating_sub(before / period);
    let mut words = Vec::new(picture.alloc);
    push_pieces(
        &mut words,
        &[
            Piece::Whole(step.saturating_sub(before)),
            Piece::Plain(b" steps"),
        ],
    )?;
    if ticks > 0 {
        let unit: &[u8] = if ticks == 1 { b" tick" } else { b" ticks" };
        push_pieces(
            &mut words,
            &[Piece::Plain(b", "), Piece::Whole(ticks), Piece::Plain(unit)],
        )?;
    }
    push_runner(&mut words, picture.lanes.as_slice())?;
    let place = at(picture.places.text_x, y);
    push_text(&mut picture.below, place, words.as_slice(), b"quiet")
}

// Says who runs.
fn push_runner(words: &mut Vec<u8>, lanes: &[Lane]) -> Result<(), AllocError> {
    let runner = lanes
        .iter()
        .find(|lane| lane.state == State::Runs && lane.party.is_task());
    match runner {
        Some(lane) => {
            push_pieces(words, &[Piece::Plain(b": ")])?;
            push_party(words, lane.party)?;
            push_pieces(words, &[Piece::Plain(b" runs")])
        }
        None => push_pieces(words, &[Piece::Plain(b": nobody runs")]),
    }
}

// Draws a row after the tick of the row before it.
fn draw_row(picture: &mut Picture, row: &Row, tick: u64, period: u64) -> Result<(), AllocError> {
    let arrows = row.arrow_count();
    let lines = lines_of(picture.alloc, row, picture.places.columns)?;
    let height = height_of(row, lines.len() as u64, arrows);
    picture.make_room(height)?;
    let top = picture.y;
    let first = first_arrow(top, height, arrows);
    let last = first + Length::pixels(7).times(arrows.saturating_sub(1));
    change_states(picture, row.changes.as_slice(), last)?;
    if height > Length::pixels(4) {
        draw_step(picture, row, tick, period, first)?;
    }
    if let Some(new) = row.priority {
        set_priority(picture.lanes.as_mut_slice(), new);
        draw_priority(picture, new, first)?;
    }
    draw_marks(picture, row.drawn.as_slice(), first)?;
    draw_words(picture, lines.as_slice(), top)?;
    picture.note_row(row, top, height)?;
    picture.y = top + height;
    Ok(())
}

// The words of a row in lines of at most so many letters.
fn lines_of<'r>(alloc: Global, row: &'r Row, most: usize) -> Result<Vec<WordLine<'r>>, AllocError> {
    let mut lines = Vec::new(alloc);
    for saying in row.sayings.as_slice() {
        let look: &[u8] = if saying.is_bad {
            b"words red"
        } else {
            b"words "
        };
        let parts = wrapped(alloc, saying.text.as_slice(), most)?;
        for (place, words) in parts.iter().enumerate() {
            let indent = indent_at(place);
            lines.push(WordLine {
                indent,
                words,
                look,
            })?;
        }
    }
    Ok(lines)
}

// Draws lines of words, one below the other, in a row that begins here.
fn draw_words(picture: &mut Picture, lines: &[WordLine], top: Length) -> Result<(), AllocError> {
    let mut y = top + Length::pixels(9);
    for line in lines {
        let place = at(picture.places.text_x, y);
        push_moved(
            &mut picture.below,
            place,
            line.indent,
            line.words,
            line.look,
        )?;
        y = y + Length::pixels(11);
    }
    Ok(())
}

// How high a row is with so many lines of words and arrows.
fn height_of(row: &Row, lines: u64, arrows: u64) -> Length {
    if lines == 0 && row.drawn.is_empty() {
        return Length::pixels(4);
    }
    let pixels = lines.saturating_mul(11).max(arrows.saturating_mul(7));
    Length::pixels(pixels.max(11))
}

// Where the first arrow of a row is: several are in its middle.
fn first_arrow(top: Length, height: Length, arrows: u64) -> Length {
    let middle = top + height.part(2);
    if arrows < 2 {
        return middle.min(top + Length::tenths(55));
    }
    middle - Length::tenths(35).times(arrows - 1)
}

// Draws the lanes of tasks that get another state down to here, and changes their states. Who runs is chosen when all else of the step is done.
fn change_states(picture: &mut Picture, changes: &[Change], to: Length) -> Result<(), AllocError> {
    for lane in picture.lanes.iter_mut() {
        let change = changes
            .iter()
            .rev()
            .find(|change| change.party == lane.party);
        if let Some(change) = change {
            if change.state != lane.state {
                draw_lane(&mut picture.below, lane, to)?;
                lane.state = change.state;
            }
        }
    }
    Ok(())
}

// Draws the number of the step, and its tick where it is the first step after one.
fn draw_step(
    picture: &mut Picture,
    row: &Row,
    tick: u64,
    period: u64,
    y: Length,
) -> Result<(), AllocError> {
    let below = picture.y + Length::pixels(9);
    push_number(
        &mut picture.below,
        at(Length::pixels(44), below),
        b"",
        row.step,
        b"step end",
    )?;
    if row.tick == tick || row.step == 0 || row.step % period.max(1) != 0 {
        return Ok(());
    }
    let left = Length::pixels(48);
    let right = picture.places.text_x - Length::pixels(10);
    push_line(&mut picture.below, at(left, y), at(right, y), b"tick")?;
    push_number(
        &mut picture.below,
        at(left, below),
        b"t",
        row.tick,
        b"small",
    )
}

// Draws a priority beside its lane, at its right where there is room before the words.
fn draw_priority(picture: &mut Picture, new: NewPriority, y: Length) -> Result<(), AllocError> {
    let Some(lane) = lane_of(picture.lanes.as_slice(), new.party) else {
        return Ok(());
    };
    let y = y + Length::pixels(3);
    let right = lane.x + Length::pixels(7);
    let digits = u64::from(new.priority.max(1).ilog10()) + 1;
    if right + Length::tenths(49).times(digits) < picture.places.text_x - Length::pixels(4) {
        return push_number(
            &mut picture.above,
            at(right, y),
            b"",
            new.priority,
            b"small",
        );
    }
    let left = lane.x - Length::pixels(7);
    push_number(
        &mut picture.above,
        at(left, y),
        b"",
        new.priority,
        b"small end",
    )
}

// Draws arrows from here downwards, and each mark at the height of the last arrow before it.
fn draw_marks(picture: &mut Picture, drawn: &[Drawn], first: Length) -> Result<(), AllocError> {
    let mut y = first;
    let mut next = first;
    for thing in drawn {
        match thing {
            Drawn::Arrow { from, to, look } => {
                let lanes = picture.lanes.as_slice();
                if let (Some(from), Some(to)) = (lane_of(lanes, *from), lane_of(lanes, *to)) {
                    draw_arrow(&mut picture.above, from, to, next, *look)?;
                }
                y = next;
                next = next + Length::pixels(7);
            }
            Drawn::Mark { on, look } => {
                if let Some(lane) = lane_of(picture.lanes.as_slice(), *on) {
                    draw_mark(&mut picture.above, at(lane.x, y), *look)?;
                }
            }
        }
    }
    Ok(())
}

// Draws an arrow at this height. It begins and ends beside the beams of tasks.
fn draw_arrow(
    svg: &mut Vec<u8>,
    from: &Lane,
    to: &Lane,
    y: Length,
    look: Arrow,
) -> Result<(), AllocError> {
    let begin = Length::pixels(if from.party.is_task() { 5 } else { 0 });
    let end = Length::pixels(if to.party.is_task() { 5 } else { 0 });
    let tip = Length::pixels(5);
    let is_right = to.x > from.x;
    let (begin, end, tip) = if is_right {
        (from.x + begin, to.x - end, to.x - end - tip)
    } else {
        (from.x - begin, to.x + end, to.x + end + tip)
    };
    push_line(svg, at(begin, y), at(tip, y), look_of(look))?;
    push_tip(svg, at(end, y), is_right, look)
}

// Draws the tip of an arrow.
fn push_tip(svg: &mut Vec<u8>, end: Point, is_right: bool, look: Arrow) -> Result<(), AllocError> {
    let way: &[u8] = if is_right {
        b"l-6.0 -3 l0 6 z"
    } else {
        b"l6.0 -3 l0 6 z"
    };
    push_path(svg, end, way, tip_look(look))
}

fn look_of(look: Arrow) -> &'static [u8] {
    match look {
        Arrow::Sent => b"send",
        Arrow::Returned => b"return",
        Arrow::Written => b"write",
    }
}

fn tip_look(look: Arrow) -> &'static [u8] {
    match look {
        Arrow::Sent => b"tip send",
        Arrow::Returned => b"tip return",
        Arrow::Written => b"tip write",
    }
}

// Draws a mark.
fn draw_mark(svg: &mut Vec<u8>, place: Point, look: Mark) -> Result<(), AllocError> {
    let Point { x, y } = place;
    match look {
        Mark::Dot => push_dot(svg, place),
        Mark::Cross => {
            let half = Length::pixels(5);
            push_path(
                svg,
                at(x - half, y - half),
                b"l10 10 m0 -10 l-10 10",
                b"cross",
            )
        }
        Mark::End => {
            let half = Length::pixels(8);
            push_line(svg, at(x - half, y), at(x + half, y), b"stop")
        }
        Mark::Key => {
            let begin = x - Length::pixels(14);
            push_line(svg, at(begin, y), at(x - Length::pixels(6), y), b"send")?;
            push_path(
                svg,
                at(x - Length::pixels(1), y),
                b"l-6 -3 l0 6 z",
                b"tip send",
            )
        }
    }
}
