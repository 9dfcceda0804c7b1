// Where the lanes and the words of a picture are.

use crate::forms::Form;
use crate::lanes::Lane;
use crate::lengths::Length;

/// Where the lanes begin, in pixels.
const LEFT: u64 = 62;

/// The most room of a lane, in pixels.
const MOST_ROOM: u64 = 68;

/// The least room of a lane in a part of a document, in pixels.
const LEAST_ROOM: u64 = 40;

/// The least room of the words in a part of a document, in pixels.
const LEAST_TEXT: u64 = 190;

/// How wide a letter is, in hundredths of a pixel.
const LETTER: u64 = 545;

/// Where things are on a picture, from left to right.
#[derive(Clone, Copy)]
pub struct Places {
    /// How wide the picture is.
    pub width: u64,
    /// The room of a lane.
    pub spacing: Length,
    /// Where the words begin.
    pub text_x: Length,
    /// How many letters go on a line of words.
    pub columns: usize,
}

/// The places on a picture of this form with so many lanes. A part of a document is wider than is wanted where its lanes need it.
pub fn places_of(form: &Form, lanes: u64) -> Places {
    let width = width_of(form, lanes);
    let even = Length::pixels(width).part(lanes.max(1).saturating_mul(2));
    let spacing = even.max(least_room(form)).min(Length::pixels(MOST_ROOM));
    let text_x = Length::pixels(LEFT + 12) + spacing.times(lanes);
    let room = Length::pixels(width.saturating_sub(4)) - text_x;
    Places {
        width,
        spacing,
        text_x,
        columns: room.times(100).count_of(Length::pixels(LETTER)) as usize,
    }
}

fn width_of(form: &Form, lanes: u64) -> u64 {
    if form.is_part {
        let least = LEAST_ROOM
            .saturating_mul(lanes)
            .saturating_add(LEFT + LEAST_TEXT);
        return form.width.max(least);
    }
    form.width
}

fn least_room(form: &Form) -> Length {
    Length::pixels(if form.is_part { LEAST_ROOM } else { 0 })
}

impl Places {
    /// Puts the lanes side by side.
    pub fn place(&self, lanes: &mut [Lane]) {
        let mut left = Length::pixels(LEFT);
        for lane in lanes.iter_mut() {
            lane.x = left + self.spacing.part(2);
            left = left + self.spacing;
        }
    }
}
