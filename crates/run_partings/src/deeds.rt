// What one who does things has done in both runs, in its order. What it has done in one of them, and in the other not yet, waits.

use crate::addresses::MovedAddresses;
use crate::doers::Doer;
use crate::keys::push_key;
use crate::log_lines::Line;
use crate::sides::{Both, Side};
use std::alloc::{AllocError, Global};

/// What one has done.
#[derive(Drop)]
pub struct Deeds<'a> {
    /// Who it is.
    pub who: Doer<'a>,
    /// The lines that one run has, from the next one on that the other has not.
    waiting: Vec<Line<'a>>,
    /// How many of them the other has by now.
    next: usize,
    /// The run that has them.
    waits_in: Side,
    /// Whether it has done something else.
    pub is_other: bool,
    /// The steps in which it did the same for the last time; 0 if it never did.
    pub last_step: Both<u64>,
    /// What it did when the two were compared for the last time.
    pub compared: Both<Option<Line<'a>>>,
}

impl<'a> Deeds<'a> {
    /// One who has done nothing yet.
    pub fn new(alloc: Global, who: Doer<'a>) -> Deeds<'a> {
        Deeds {
            who,
            waiting: Vec::new(alloc),
            next: 0,
            waits_in: Side::A,
            is_other: false,
            last_step: Both { a: 0, b: 0 },
            compared: Both { a: None, b: None },
        }
    }

    /// The next line that this run has and the other one has not.
    pub fn ahead(&self, side: Side) -> Option<Line<'a>> {
        if self.waits_in != side {
            return None;
        }
        self.waiting.as_slice().get(self.next).copied()
    }

    /// It does this in one run, and clocks have these periods. The answer is whether that is something else than in the other.
    pub fn arrive(
        &mut self,
        alloc: Global,
        side: Side,
        line: Line<'a>,
        periods: Both<u64>,
        moved: &mut MovedAddresses,
    ) -> Result<bool, AllocError> {
        if self.is_other {
            return Ok(false);
        }
        let Some(other) = self.take_ahead(side.other()) else {
            self.waits_in = side;
            self.waiting.push(line)?;
            return Ok(false);
        };
        let both = match side {
            Side::A => Both { a: line, b: other },
            Side::B => Both { a: other, b: line },
        };
        self.compared = Both {
            a: Some(both.a),
            b: Some(both.b),
        };
        self.is_other = !are_alike(alloc, both, periods, moved)?;
        if !self.is_other {
            self.last_step = Both {
                a: both.a.step,
                b: both.b.step,
            };
        }
        Ok(self.is_other)
    }

    // Takes the next line that this run has and the other one had not until now.
    fn take_ahead(&mut self, side: Side) -> Option<Line<'a>> {
        let line = self.ahead(side)?;
        self.next = self.next.saturating_add(1);
        if self.next >= self.waiting.len() {
            self.waiting.clear();
            self.next = 0;
        }
        Some(line)
    }
}

// Whether both lines say the same, where clocks have these periods.
fn are_alike(
    alloc: Global,
    lines: Both<Line>,
    periods: Both<u64>,
    moved: &mut MovedAddresses,
) -> Result<bool, AllocError> {
    let mut a = Vec::new(alloc);
    push_key(alloc, &mut a, &lines.a, periods.a)?;
    let mut b = Vec::new(alloc);
    push_key(alloc, &mut b, &lines.b, periods.b)?;
    moved.are_alike(a.as_slice(), b.as_slice())
}
