// Both runs, line by line, up to where one does something else.

use crate::addresses::MovedAddresses;
use crate::deeds::Deeds;
use crate::doers::{Doer, doer_of, doer_of_task};
use crate::ends::End;
use crate::log_lines::Line;
use crate::sides::{Both, SIDES, Side};
use crate::ways::{LostWay, Ways};
use std::alloc::{AllocError, Global};

/// What is known of both runs after some of their lines.
#[derive(Drop)]
pub struct Following<'a> {
    /// Where memory comes from.
    alloc: Global,
    /// The periods of the clocks; 0 where there is none.
    periods: Both<u64>,
    /// The addresses that are moved.
    pub moved: MovedAddresses,
    /// What each has done. The first is the order of all.
    pub deeds: Vec<Deeds<'a>>,
    /// The ways of each task.
    ways: Vec<Ways<'a>>,
    /// The first way that is another one.
    first_lost: Option<LostWay<'a>>,
    /// The way that leads to what is done otherwise, or where nothing is, the first that is another one.
    pub lost: Option<LostWay<'a>>,
    /// Who does something else, by its index.
    pub found: Option<usize>,
    /// Up to which steps both were followed.
    pub now: Both<u64>,
    /// Whether all lines of a run were read.
    pub is_over: Both<bool>,
    /// Whether the end of a run was reached.
    pub has_ended: Both<bool>,
}

impl<'a> Following<'a> {
    /// Both runs before their first lines, where clocks have these periods. Code may be elsewhere in B exactly where the machines differ.
    pub fn new(
        alloc: Global,
        periods: Both<u64>,
        has_other_code: bool,
    ) -> Result<Following<'a>, AllocError> {
        let mut deeds = Vec::new(alloc);
        deeds.push(Deeds::new(alloc, Doer::Order))?;
        Ok(Following {
            alloc,
            periods,
            moved: MovedAddresses::new(alloc, has_other_code),
            deeds,
            ways: Vec::new(alloc),
            first_lost: None,
            lost: None,
            found: None,
            now: Both { a: 0, b: 0 },
            is_over: Both { a: false, b: false },
            has_ended: Both { a: false, b: false },
        })
    }

    /// Follows both runs by these lines, in the order of their steps, until one does something else.
    pub fn follow(&mut self, a: &[Line<'a>], b: &[Line<'a>]) -> Result<(), AllocError> {
        let mut next = Both {
            a: 0usize,
            b: 0usize,
        };
        for _ in 0..a.len().saturating_add(b.len()) {
            if self.found.is_some() {
                break;
            }
            let own = a.get(next.a);
            let other = b.get(next.b);
            let Some((side, line)) = earlier(own, other) else {
                break;
            };
            next.set(side, next.of(side).saturating_add(1));
            self.now.set(side, line.step);
            self.take_line(side, line)?;
        }
        self.is_over = Both {
            a: next.a >= a.len(),
            b: next.b >= b.len(),
        };
        Ok(())
    }

    // A line of a run.
    fn take_line(&mut self, side: Side, line: Line<'a>) -> Result<(), AllocError> {
        if line.is_step() {
            return self.take_step(side, line);
        }
        if line.is_from_outside() {
            return Ok(());
        }
        if let Some(who) = doer_of(&line) {
            self.take_deed(side, line, who)?;
        }
        let order = self.deeds_of(Doer::Order)?;
        self.arrive(order, side, line)?;
        Ok(())
    }

    // An instruction.
    fn take_step(&mut self, side: Side, line: Line<'a>) -> Result<(), AllocError> {
        let index = self.ways_of(line.task)?;
        let Some(ways) = self.ways.as_mut_slice().get_mut(index) else {
            return Ok(());
        };
        let lost = ways.walk(self.alloc, side, line, &mut self.moved)?;
        if self.first_lost.is_none() {
            self.first_lost = lost;
        }
        Ok(())
    }

    // Something that somebody does.
    fn take_deed(&mut self, side: Side, line: Line<'a>, who: Doer<'a>) -> Result<(), AllocError> {
        let index = self.deeds_of(who)?;
        if self.arrive(index, side, line)? {
            self.found = Some(index);
            if who.is(doer_of_task(line.task)) {
                self.lost = self.lost_way(side, line.task);
            }
        }
        let Some(task) = who.task() else {
            return Ok(());
        };
        let index = self.ways_of(task)?;
        if let Some(ways) = self.ways.as_mut_slice().get_mut(index) {
            ways.note_deed(side);
        }
        Ok(())
    }

    // What one with this index does in a run. The answer is whether that is something else.
    fn arrive(&mut self, index: usize, side: Side, line: Line<'a>) -> Result<bool, AllocError> {
        match self.deeds.as_mut_slice().get_mut(index) {
            Some(deeds) => deeds.arrive(self.alloc, side, line, self.periods, &mut self.moved),
            None => Ok(false),
        }
    }

    // Where a task went another way since the last thing that it did.
    fn lost_way(&self, side: Side, task: &[u8]) -> Option<LostWay<'a>> {
        let ways = self.ways.iter().find(|ways| ways.task == task)?;
        if ways.is_lost(side) { ways.lost } else { None }
    }

    // The index of what one has done.
    fn deeds_of(&mut self, who: Doer<'a>) -> Result<usize, AllocError> {
        if let Some(index) = self.deeds.iter().position(|deeds| deeds.who.is(who)) {
            return Ok(index);
        }
        self.deeds.push(Deeds::new(self.alloc, who))?;
        Ok(self.deeds.len().saturating_sub(1))
    }

    // The index of the ways of a task.
    fn ways_of(&mut self, task: &'a [u8]) -> Result<usize, AllocError> {
        if let Some(index) = self.ways.iter().position(|ways| ways.task == task) {
            return Ok(index);
        }
        self.ways.push(Ways::new(self.alloc, task))?;
        Ok(self.ways.len().saturating_sub(1))
    }

    /// No more lines come, of which each run has all or not: who did something in one of them may not do it in the other.
    pub fn end(&mut self, ends: Both<&End>, has_all: Both<bool>) {
        for side in SIDES {
            if self.is_over.of(side) && has_all.of(side) {
                self.has_ended.set(side, true);
                self.now.set(side, ends.of(side).step);
            }
        }
        self.find_late(ends);
        if self.found.is_none() && self.lost.is_none() {
            self.lost = self.first_lost;
        }
    }

    /// The step of each run from which on its lines are shown: in which its task goes another way, or somebody does something else, or did the same for
    /// the last time.
    pub fn anchors(&self) -> Both<u64> {
        if let Some(lost) = self.lost {
            return Both {
                a: lost.passes.a.line.step,
                b: lost.passes.b.line.step,
            };
        }
        Both {
            a: self.anchor_of_deeds(Side::A).unwrap_or(0),
            b: self.anchor_of_deeds(Side::B).unwrap_or(0),
        }
    }

    // The same, where no way leads to it.
    fn anchor_of_deeds(&self, side: Side) -> Option<u64> {
        let deeds = self.deeds.as_slice().get(self.found?)?;
        match deeds.compared.of(side) {
            Some(line) => Some(line.step),
            None => Some(deeds.last_step.of(side)),
        }
    }

    // Finds the first one who is late, if that is before the difference that was found.
    fn find_late(&mut self, ends: Both<&End>) {
        let mut best = self.found_step();
        let mut late = None;
        for (index, deeds) in self.deeds.iter().enumerate() {
            for side in SIDES {
                if let Some(line) = self.late_line(deeds, side, ends) {
                    if best.is_none_or(|step| line.step <= step) && !is_later(late, line.step) {
                        best = Some(line.step);
                        late = Some((index, side, line));
                    }
                }
            }
        }
        let Some((index, side, line)) = late else {
            return;
        };
        self.found = Some(index);
        self.lost = None;
        if let Some(deeds) = self.deeds.as_mut_slice().get_mut(index) {
            deeds.compared.set(side, Some(line));
            deeds.compared.set(side.other(), None);
        }
    }

    // The later one of the steps in which something else is done.
    fn found_step(&self) -> Option<u64> {
        let deeds = self.deeds.as_slice().get(self.found?)?;
        let a = deeds.compared.a?;
        let b = deeds.compared.b?;
        Some(a.step.max(b.step))
    }

    // What one has done in a run, and has not done in the other after more than twice as many steps and ticks, or to its end.
    fn late_line(&self, deeds: &Deeds<'a>, side: Side, ends: Both<&End>) -> Option<Line<'a>> {
        if matches!(deeds.who, Doer::Order) {
            return None;
        }
        let line = deeds.ahead(side)?;
        let other = side.other();
        if self.has_ended.of(other) && !ends.of(other).is_cut {
            return Some(line);
        }
        let own = Span {
            first: deeds.last_step.of(side),
            last: line.step,
        };
        let waited = Span {
            first: deeds.last_step.of(other),
            last: self.now.of(other),
        };
        if waited.steps() <= own.steps().saturating_mul(2).saturating_add(100) {
            return None;
        }
        match (
            own.ticks(self.periods.of(side)),
            waited.ticks(self.periods.of(other)),
        ) {
            (Some(own), Some(waited)) => (waited
                > own.saturating_mul(2).saturating_add(2)).then_some(line),
            _ => Some(line),
        }
    }
}

// The one of both lines that comes first, by its step; of two of one step, that of A. `None` where there are none.
fn earlier<'a>(a: Option<&Line<'a>>, b: Option<&Line<'a>>) -> Option<(Side, Line<'a>)> {
    match (a, b) {
        (Some(own), Some(other)) if other.step < own.step => Some((Side::B, *other)),
        (Some(own), _) => Some((Side::A, *own)),
        (None, Some(other)) => Some((Side::B, *other)),
        (None, None) => None,
    }
}

// Whether somebody was late before this step, or in it.
fn is_later(late: Option<(usize, Side, Line)>, step: u64) -> bool {
    match late {
        Some((_, _, line)) => line.step <= step,
        None => false,
    }
}

/// Steps of a run.
#[derive(Clone, Copy)]
struct Span {
    /// The step before them.
    first: u64,
    /// The last one.
    last: u64,
}

impl Span {
    // How many there are.
    fn steps(self) -> u64 {
        self.last.saturating_sub(self.first)
    }

    // How many ticks come in them, with a tick every so many steps; `None` where there is no clock.
    fn ticks(self, period: u64) -> Option<u64> {
        let last = self.last.checked_div(period)?;
        Some(last.saturating_sub(self.first.checked_div(period)?))
    }
}
