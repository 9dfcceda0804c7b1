// The lines of a run that the table shows: those around the step in which it parts from the other.

use crate::keys::{push_key, push_words};
use crate::log_lines::Line;
use crate::runs::{Run, push_place};
use circular_buffer::HeapCircularBuffer;
use std::alloc::{AllocError, Global};
use tool_texts::Said::Bytes;
use tool_texts::push_sentence;

/// How many places at which tasks were interrupted are shown at most.
pub const MOST_CUTS: usize = 5;

/// A line that the table shows.
#[derive(Drop)]
pub struct Cell<'a> {
    /// The line.
    pub line: Line<'a>,
    /// What it says that its run does.
    pub key: Vec<u8>,
    /// Its words, with places as the map has them.
    pub words: Vec<u8>,
    /// The last instruction of the task that was interrupted in it, if one was.
    pub done: Option<Line<'a>>,
}

/// A task was interrupted, since another one goes on.
#[derive(Clone, Copy)]
pub struct Cut<'a> {
    /// The step.
    pub step: u64,
    /// Its last instruction.
    pub done: Line<'a>,
}

/// A line that may be shown, and the instruction after which a task was interrupted in it.
#[derive(Clone, Copy)]
struct Row<'a> {
    /// The line.
    line: Line<'a>,
    /// The last instruction of the task that was interrupted.
    done: Option<Line<'a>>,
}

/// What the table shows of a run.
#[derive(Drop)]
pub struct Shown<'a> {
    /// The lines.
    pub cells: Vec<Cell<'a>>,
    /// The last places at which tasks were interrupted, before the runs part.
    pub cuts: Vec<Cut<'a>>,
    /// Whether no line comes after them.
    pub is_over: bool,
}

/// Which lines are shown.
#[derive(Clone, Copy)]
pub struct Window {
    /// The step in which the run parts from the other.
    pub anchor: u64,
    /// How many lines before it are shown.
    pub before: usize,
    /// How many from there on.
    pub lines: usize,
    /// The instruction in this step is shown too.
    pub shows_step: Option<u64>,
}

/// What is gathered of a run.
#[derive(Drop)]
struct Gathering<'a> {
    /// The last lines before the anchor.
    before: HeapCircularBuffer<Row<'a>>,
    /// Those from there on.
    rows: Vec<Row<'a>>,
    /// The last places at which tasks were interrupted before it.
    cuts: HeapCircularBuffer<Cut<'a>>,
    /// The last instruction.
    done: Option<Line<'a>>,
    /// Whether a task has called or died since.
    is_called: bool,
}

/// What the table shows of a run with these lines, where its clock has this period.
pub fn lines_shown<'a>(
    alloc: Global,
    run: &Run,
    period: u64,
    window: Window,
    lines: &[Line<'a>],
) -> Result<Shown<'a>, AllocError> {
    let mut gathering = Gathering {
        before: HeapCircularBuffer::with_capacity(alloc, window.before)?,
        rows: Vec::new(alloc),
        cuts: HeapCircularBuffer::with_capacity(alloc, MOST_CUTS)?,
        done: None,
        is_called: false,
    };
    let mut is_reached = false;
    for line in lines {
        if gathering.rows.len() >= window.lines {
            break;
        }
        is_reached = is_reached || line.step >= window.anchor;
        gathering.take_line(window, is_reached, *line)?;
    }
    let is_over = gathering.rows.len() < window.lines;
    let mut cells = Vec::new(alloc);
    for row in gathering.before.iter().chain(gathering.rows.iter()) {
        cells.push(cell_of(alloc, run, period, row)?)?;
    }
    let mut cuts = Vec::new(alloc);
    for cut in gathering.cuts.iter() {
        cuts.push(*cut)?;
    }
    Ok(Shown {
        cells,
        cuts,
        is_over,
    })
}

impl<'a> Gathering<'a> {
    // A line comes, before the anchor or from there on.
    fn take_line(
        &mut self,
        window: Window,
        is_reached: bool,
        line: Line<'a>,
    ) -> Result<(), AllocError> {
        if line.is_step() {
            self.done = Some(line);
            self.is_called = false;
        }
        if line.is_of_task() {
            self.is_called = true;
        }
        if line.is_from_outside() || line.is_step() && window.shows_step != Some(line.step) {
            return Ok(());
        }
        let done = self.interrupted(&line);
        let row = Row { line, done };
        if is_reached {
            self.rows.push(row)?;
            return Ok(());
        }
        self.before.push_back(row);
        if let Some(done) = done {
            self.cuts.push_back(Cut {
                step: line.step,
                done,
            });
        }
        Ok(())
    }

    // The last instruction of the task that a line tells to be interrupted; `None` where it tells nothing of that.
    fn interrupted(&self, line: &Line) -> Option<Line<'a>> {
        if line.kind != b"run".as_slice() || self.is_called {
            return None;
        }
        self.done.filter(|done| done.step == line.step)
    }
}

// A line as it is shown.
fn cell_of<'a>(
    alloc: Global,
    run: &Run,
    period: u64,
    row: &Row<'a>,
) -> Result<Cell<'a>, AllocError> {
    let line = row.line;
    let mut key = Vec::new(alloc);
    let mut words = Vec::new(alloc);
    push_words(&mut words, line.words)?;
    if line.is_step() {
        push_sentence(&mut key, &[Bytes(b"step")])?;
        push_at(&mut words, run, line.pc)?;
    } else {
        push_key(alloc, &mut key, &line, period)?;
    }
    if let Some(done) = row.done {
        push_sentence(
            &mut words,
            &[
                Bytes(b"; task "),
                Bytes(done.task),
                Bytes(b" was interrupted after "),
            ],
        )?;
        push_words(&mut words, done.words)?;
        push_at(&mut words, run, done.pc)?;
    }
    Ok(Cell {
        line,
        key,
        words,
        done: row.done,
    })
}

/// Adds where an instruction of a run is.
pub fn push_at(text: &mut Vec<u8>, run: &Run, pc: &[u8]) -> Result<(), AllocError> {
    push_sentence(text, &[Bytes(b" at ")])?;
    push_place(text, run, pc)
}
