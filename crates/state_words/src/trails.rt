// What is kept of the steps of a run: how tasks died, how PC came to where a fault was met, which frames were written beyond a stack, who took
// which packet, and which sends were refused.
use crate::instructions::{has_led, written_frame};
use crate::spans::{Span, first_beyond, is_in_any};
use crate::ways::{Beyond, Death, Done, Refusal, Take, Trail, Way};
use log_words::events::Event;
use log_words::step_texts::{Moment, StepLists, StepText, Written};
use std::alloc::{AllocError, Global};
use std::collections::BTreeMap;

/// More than the highest number of a task.
const TASKS: usize = 64;

/// What is kept of the steps of a run.
#[derive(Drop)]
pub struct Trails {
    /// The memory.
    alloc: Global,
    /// The bytes that have code.
    code: Vec<Span>,
    /// The words of the blocks that have stacks.
    stacks: Vec<Span>,
    /// What is kept of the task of each number. A bare machine has number 0.
    tasks: Vec<Trail>,
    /// Who took each packet last.
    takes: BTreeMap<u32, Take>,
}

impl Trails {
    /// Nothing was done yet. These bytes have code, and these words stacks.
    pub fn new(alloc: Global, code: Vec<Span>, stacks: Vec<Span>) -> Result<Trails, AllocError> {
        let mut tasks = Vec::new(alloc);
        for _ in 0..TASKS {
            tasks.push(Trail::new())?;
        }
        Ok(Trails {
            alloc,
            code,
            stacks,
            tasks,
            takes: BTreeMap::new(alloc),
        })
    }

    /// A task has met a fault, so that it is kept how PC came there.
    pub fn watch(&mut self, id: u32) {
        if let Some(trail) = self.tasks.get_mut(id as usize) {
            trail.is_faulted = true;
        }
    }

    /// What is kept of a task; `None` where none can have the number.
    pub fn trail(&self, id: u32) -> Option<&Trail> {
        self.tasks.get(id as usize)
    }

    /// Who took a packet last; `None` where nobody did.
    pub fn take(&self, packet: u32) -> Option<Take> {
        self.takes.get(&packet).copied()
    }

    /// Whether some blocks have stacks.
    pub fn has_stacks(&self) -> bool {
        !self.stacks.is_empty()
    }

    /// Notes a step, by what its lines say.
    pub fn note_step(&mut self, step: &StepText, lists: &StepLists) -> Result<(), AllocError> {
        let moment = step.moment;
        if step.dies {
            self.note_death(moment);
        } else if let Some(instruction) = step.instruction {
            self.note_way(moment)?;
            self.note_done(moment, instruction)?;
            self.note_written(moment, instruction, lists.own_writes.as_slice().first())?;
        }
        if let Some(call) = step.call {
            self.note_call(moment, call, step.refusal)?;
        }
        for event in lists.events.as_slice() {
            self.note_event(moment.step, *event)?;
        }
        Ok(())
    }

    // A task dies after its last instruction.
    fn note_death(&mut self, moment: Moment) {
        if let Some(trail) = self.tasks.get_mut(moment.task as usize) {
            trail.death = Some(Death {
                step: moment.step,
                done: trail.done.take(),
            });
        }
    }

    // The instruction of a task before this one has led here.
    fn note_way(&mut self, moment: Moment) -> Result<(), AllocError> {
        let code = self.code.as_slice();
        let Some(trail) = self.tasks.get_mut(moment.task as usize) else {
            return Ok(());
        };
        let Some(done) = &trail.done else {
            return Ok(());
        };
        if !trail.is_faulted {
            return Ok(());
        }
        let is_led = has_led(done.instruction.as_slice(), done.pc, moment.pc);
        let leaves = is_in_any(code, u64::from(done.pc)) && !is_in_any(code, u64::from(moment.pc));
        if is_led {
            trail.led = Some(way_by(self.alloc, done, moment.pc, is_led)?);
        }
        if leaves {
            trail.left = Some(way_by(self.alloc, done, moment.pc, is_led)?);
        }
        trail.before = Some(way_by(self.alloc, done, moment.pc, is_led)?);
        Ok(())
    }

    // A task executes an instruction.
    fn note_done(&mut self, moment: Moment, instruction: &[u8]) -> Result<(), AllocError> {
        if let Some(trail) = self.tasks.get_mut(moment.task as usize) {
            trail.done = Some(Done {
                step: moment.step,
                pc: moment.pc,
                instruction: Vec::from_slice(self.alloc, instruction)?,
            });
        }
        Ok(())
    }

    // The instruction of a task writes this word first; of the frames beyond a stack the first is kept.
    fn note_written(
        &mut self,
        moment: Moment,
        instruction: &[u8],
        written: Option<&Written>,
    ) -> Result<(), AllocError> {
        let Some(written) = written else {
            return Ok(());
        };
        let Some(trail) = self.tasks.get_mut(moment.task as usize) else {
            return Ok(());
        };
        if trail.beyond.is_some() {
            return Ok(());
        }
        let Some(frame) = written_frame(instruction, written.address, written.new) else {
            return Ok(());
        };
        let stack = first_beyond(self.stacks.as_slice(), frame.p, written.address);
        if let Some(stack) = stack {
            trail.beyond = Some(Beyond {
                stack: stack.from,
                step: moment.step,
                pc: moment.pc,
                first: written.address,
                last: written
                    .address
                    .saturating_add(frame.words.saturating_sub(1)),
                by: Vec::from_slice(self.alloc, instruction)?,
            });
        }
        Ok(())
    }

    // A task calls the kernel; of the calls only sends are kept, and of these only the last.
    fn note_call(
        &mut self,
        moment: Moment,
        call: &[u8],
        refusal: Option<&[u8]>,
    ) -> Result<(), AllocError> {
        if !call.starts_with(b"qpkt(") {
            return Ok(());
        }
        let Some(trail) = self.tasks.get_mut(moment.task as usize) else {
            return Ok(());
        };
        trail.refusal = match refusal {
            Some(why) => Some(Refusal {
                step: moment.step,
                call: Vec::from_slice(self.alloc, call)?,
                why: Vec::from_slice(self.alloc, why)?,
            }),
            None => None,
        };
        Ok(())
    }

    // Something happens to a packet; it is kept who takes one.
    fn note_event(&mut self, step: u64, event: Event) -> Result<(), AllocError> {
        if let Event::Taken { by, packet, .. } = event {
            self.takes.insert(packet, Take { by, step })?;
        }
        Ok(())
    }
}

// The way from an instruction that was executed to a byte.
fn way_by(alloc: Global, done: &Done, goal: u32, is_led: bool) -> Result<Way, AllocError> {
    Ok(Way {
        step: done.step,
        from: done.pc,
        goal,
        is_led,
        by: Vec::from_slice(alloc, done.instruction.as_slice())?,
    })
}
