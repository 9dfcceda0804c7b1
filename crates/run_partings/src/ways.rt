// The ways of a task in both runs: the instructions between two things that it does.

use crate::addresses::MovedAddresses;
use crate::keys::push_step_key;
use crate::log_lines::Line;
use crate::sides::{Both, Side};
use run_pictures::texts::split_once;
use std::alloc::{AllocError, Global};

/// An instruction of a way.
#[derive(Clone, Copy)]
pub struct Pass<'a> {
    /// Its line.
    pub line: Line<'a>,
    /// Whether the instruction before it led there.
    is_jump: bool,
    /// How many things the task had done that have instructions after them.
    part: u64,
}

/// Where a task goes another way.
#[derive(Clone, Copy)]
pub struct LostWay<'a> {
    /// The number of the task, or `-` for the program of a bare machine.
    pub task: &'a [u8],
    /// The last instruction in A that was the same in B, if there was one.
    pub after: Option<Pass<'a>>,
    /// The first that is another one.
    pub passes: Both<Pass<'a>>,
}

/// The ways of a task.
#[derive(Drop)]
pub struct Ways<'a> {
    /// The number of the task, or `-` for the program of a bare machine.
    pub task: &'a [u8],
    /// The instructions that one run has, from the next one on that the other has not.
    waiting: Vec<Pass<'a>>,
    /// How many of them the other has by now.
    next: usize,
    /// The run that has them.
    waits_in: Side,
    /// How many things the task has done that have instructions after them.
    part: Both<u64>,
    /// Whether it has done something since its last instruction.
    has_done: Both<bool>,
    /// Where its last instruction leads, or nothing.
    leads_to: Both<&'a [u8]>,
    /// The part in which its way became another one.
    lost_part: Option<u64>,
    /// The last instruction in A that was the same in B.
    last: Option<Pass<'a>>,
    /// Where it goes another way, if it does.
    pub lost: Option<LostWay<'a>>,
}

impl<'a> Ways<'a> {
    /// A task that has executed nothing yet.
    pub fn new(alloc: Global, task: &'a [u8]) -> Ways<'a> {
        Ways {
            task,
            waiting: Vec::new(alloc),
            next: 0,
            waits_in: Side::A,
            part: Both { a: 0, b: 0 },
            has_done: Both { a: false, b: false },
            leads_to: Both { a: b"", b: b"" },
            lost_part: None,
            last: None,
            lost: None,
        }
    }

    /// It has done something: its next way begins with its next instruction.
    pub fn note_deed(&mut self, side: Side) {
        self.has_done.set(side, true);
    }

    /// Whether its way is another one since the last thing that it did.
    pub fn is_lost(&self, side: Side) -> bool {
        self.lost_part == Some(self.part.of(side))
    }

    /// It executes an instruction in one run. The answer is where it goes another way by it.
    pub fn walk(
        &mut self,
        alloc: Global,
        side: Side,
        line: Line<'a>,
        moved: &mut MovedAddresses,
    ) -> Result<Option<LostWay<'a>>, AllocError> {
        if self.has_done.of(side) {
            self.part.set(side, self.part.of(side).saturating_add(1));
            self.has_done.set(side, false);
        }
        let pass = Pass {
            line,
            is_jump: self.leads_to.of(side) == line.pc,
            part: self.part.of(side),
        };
        self.leads_to.set(side, target(line.words));
        if self.is_lost(side) {
            return Ok(None);
        }
        self.pass(alloc, side, pass, moved)
    }

    // The same, where its way is no other one yet.
    fn pass(
        &mut self,
        alloc: Global,
        side: Side,
        pass: Pass<'a>,
        moved: &mut MovedAddresses,
    ) -> Result<Option<LostWay<'a>>, AllocError> {
        for _ in 0..self.waiting.len() {
            let Some(other) = self.ahead(side.other()) else {
                break;
            };
            if other.part > pass.part {
                return Ok(None);
            }
            self.drop_ahead();
            if other.part == pass.part {
                return self.compare(alloc, side, pass, other, moved);
            }
        }
        self.waits_in = side;
        self.waiting.push(pass)?;
        Ok(None)
    }

    // The next instruction that this run has and the other one has not.
    fn ahead(&self, side: Side) -> Option<Pass<'a>> {
        if self.waits_in != side {
            return None;
        }
        self.waiting.as_slice().get(self.next).copied()
    }

    // The other run has it now.
    fn drop_ahead(&mut self) {
        self.next = self.next.saturating_add(1);
        if self.next >= self.waiting.len() {
            self.waiting.clear();
            self.next = 0;
        }
    }

    // An instruction of one run, and that of the other in its place.
    fn compare(
        &mut self,
        alloc: Global,
        side: Side,
        own: Pass<'a>,
        other: Pass<'a>,
        moved: &mut MovedAddresses,
    ) -> Result<Option<LostWay<'a>>, AllocError> {
        let passes = match side {
            Side::A => Both { a: own, b: other },
            Side::B => Both { a: other, b: own },
        };
        let mut a = Vec::new(alloc);
        push_step_key(&mut a, &passes.a.line, passes.a.is_jump)?;
        let mut b = Vec::new(alloc);
        push_step_key(&mut b, &passes.b.line, passes.b.is_jump)?;
        if moved.are_alike(a.as_slice(), b.as_slice())? {
            self.last = Some(passes.a);
            return Ok(None);
        }
        self.lost_part = Some(own.part);
        self.lost = Some(LostWay {
            task: self.task,
            after: self.last,
            passes,
        });
        Ok(self.lost)
    }
}

// Where an instruction leads, if it is a jump; else nothing.
fn target(words: &[u8]) -> &[u8] {
    if !words.starts_with(b"J") {
        return &[];
    }
    match split_once(b" ", words) {
        Some((_, target)) => target,
        None => words,
    }
}
