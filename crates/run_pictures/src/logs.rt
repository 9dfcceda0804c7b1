// A log, line by line.
ghost use Rattle.std.specs.Prelude.{◌≡◌};
ghost use Rattle.run_pictures.specs.declared.logs.NoLog.TheVariants.{WantMemory};

use crate::log_lines::{Event, Head, LogLine, LoggedMachine, TaskLine, head_of, log_line};
use module_text::split_line;
use std::alloc::{AllocError, AllocFailed, Global};

/// The log of a machine with a kernel.
#[derive(Drop)]
pub struct Log<'a> {
    /// Its first line.
    pub title: &'a [u8],
    /// The last step that it is asked for.
    pub last: u64,
    /// How many steps there are from tick to tick.
    pub period: u64,
    /// The tasks before the first step.
    pub tasks: Vec<TaskLine<'a>>,
    /// What happened, in the order of the steps.
    pub events: Vec<Event<'a>>,
    /// Why the machine has stopped, or nothing.
    pub end: &'a [u8],
}

/// Why a text is not read as a log.
#[derive(Drop)]
pub enum NoLog {
    /// The line with this number, from 1, is no line of a log.
    Line(u64),
    /// It is the log of a bare machine.
    Bare,
    /// Memory could not be had.
    WantMemory,
}

impl<T: Drop> From<AllocFailed<T>> for NoLog {
    ghost from_gives = { λ _ e. e ≡ WantMemory };

    fn from(_: AllocFailed<T>) -> NoLog {
        NoLog::WantMemory
    }
}

impl From<AllocError> for NoLog {
    ghost from_gives = { λ _ e. e ≡ WantMemory };

    fn from(_: AllocError) -> NoLog {
        NoLog::WantMemory
    }
}

/// The log that a text is, of which so many lines come before it.
pub fn read_log<'a>(alloc: Global, before: u64, text: &'a [u8]) -> Result<Log<'a>, NoLog> {
    let mut n = before.saturating_add(1);
    let (title, lines) = split_line(text).ok_or(NoLog::Line(n))?;
    let Head { last, machine } = head_of(title).ok_or(NoLog::Line(n))?;
    let LoggedMachine::Kernel(period) = machine else {
        return Err(NoLog::Bare);
    };
    let mut log = Log {
        title,
        last,
        period,
        tasks: Vec::new(alloc),
        events: Vec::new(alloc),
        end: &[],
    };
    let mut rest = lines;
    while let Some((line, others)) = split_line(rest) {
        n = n.saturating_add(1);
        add_line(&mut log, log_line(line).ok_or(NoLog::Line(n))?)?;
        rest = others;
    }
    Ok(log)
}

// Adds what a line says.
fn add_line<'a>(log: &mut Log<'a>, line: LogLine<'a>) -> Result<(), AllocError> {
    match line {
        LogLine::Task(task) => log.tasks.push(task)?,
        LogLine::Columns => {}
        LogLine::Event(event) => log.events.push(event)?,
        LogLine::End(words) => log.end = words,
    }
    Ok(())
}
