// Where two runs part, and how that is told.

use crate::cells::Shown;
use crate::differences::{Differences, find_differences};
use crate::ends::{End, end_of};
use crate::following::Following;
use crate::log_lines::{Line, lines_of};
use crate::runs::{Form, Run};
use crate::sides::{Both, SIDES, Side};
use crate::told::Telling;
use std::alloc::{AllocError, Global};
use tool_texts::Said::Bytes;
use tool_texts::push_sentence;

/// What a comparison comes to.
#[derive(Drop)]
pub enum Compared {
    /// More of the logs is needed.
    NeedsMore,
    /// It is told.
    Told {
        /// Whether the runs, or their machines, are other ones.
        are_other: bool,
        /// The byte addresses that the words name, a line for each run.
        addresses: Vec<u8>,
        /// The words.
        text: Vec<u8>,
    },
}

/// Where both runs part. That more of their logs is needed comes only where these have not all steps.
pub fn compare(alloc: Global, form: Form, runs: Both<Run>) -> Result<Compared, AllocError> {
    let first = end_of(alloc, runs.a.state)?;
    let second = end_of(alloc, runs.b.state)?;
    let telling = Telling {
        alloc,
        form,
        runs,
        ends: Both {
            a: &first,
            b: &second,
        },
    };
    let found = known_differences(alloc, form, runs)?;
    let a = lines_of(alloc, runs.a.log)?;
    let b = lines_of(alloc, runs.b.log)?;
    let mut following = Following::new(alloc, telling.periods(), found.are_other_machines)?;
    following.follow(a.as_slice(), b.as_slice())?;
    let has_all = has_all(telling.ends, form.up_to);
    if following.found.is_none() && is_short(following.is_over, has_all) {
        return Ok(Compared::NeedsMore);
    }
    following.end(telling.ends, has_all);
    let mut text = Vec::new(alloc);
    push_differences(&mut text, &telling, &found)?;
    if following.found.is_none() && following.lost.is_none() {
        telling.push_same(&mut text, &following)?;
        return Ok(Compared::Told {
            are_other: !found.lines.is_empty(),
            addresses: addresses_of(alloc, &following, None)?,
            text,
        });
    }
    if found.lines.is_empty() {
        telling.push_names(&mut text)?;
    }
    let anchors = following.anchors();
    let shown_a = telling.shown(&following, anchors, Side::A, a.as_slice())?;
    let shown_b = telling.shown(&following, anchors, Side::B, b.as_slice())?;
    let are_over = Both {
        a: shown_a.is_over,
        b: shown_b.is_over,
    };
    if is_short(are_over, has_all) {
        return Ok(Compared::NeedsMore);
    }
    let shown = Both {
        a: &shown_a,
        b: &shown_b,
    };
    telling.push_all(&mut text, &mut following, anchors, shown)?;
    Ok(Compared::Told {
        are_other: true,
        addresses: addresses_of(alloc, &following, Some(shown))?,
        text,
    })
}

// In what the machines of both runs differ. Where one session has two clocks, they are those that were asked for.
fn known_differences(
    alloc: Global,
    form: Form,
    runs: Both<Run>,
) -> Result<Differences, AllocError> {
    if form.ticks.is_some() {
        return Ok(Differences {
            lines: Vec::new(alloc),
            are_other_machines: false,
        });
    }
    find_differences(
        alloc,
        Both {
            a: runs.a.session,
            b: runs.b.session,
        },
    )
}

// Adds in what the machines differ, if they do.
fn push_differences(
    text: &mut Vec<u8>,
    telling: &Telling,
    found: &Differences,
) -> Result<(), AllocError> {
    if found.lines.is_empty() {
        return Ok(());
    }
    telling.push_names(text)?;
    push_sentence(
        text,
        &[
            Bytes(b"at step 0 the machines differ:\n"),
            Bytes(found.lines.as_slice()),
        ],
    )
}

// Whether logs up to a step have all of the runs.
fn has_all(ends: Both<&End>, up_to: Option<u64>) -> Both<bool> {
    Both {
        a: up_to.is_none_or(|step| ends.a.step <= step),
        b: up_to.is_none_or(|step| ends.b.step <= step),
    }
}

// Whether the lines of a run are at their end, though its log has not all of it.
fn is_short(are_over: Both<bool>, has_all: Both<bool>) -> bool {
    are_over.a && !has_all.a || are_over.b && !has_all.b
}

// A line for each run: its letter, and the byte addresses that the words name.
fn addresses_of(
    alloc: Global,
    following: &Following,
    shown: Option<Both<&Shown>>,
) -> Result<Vec<u8>, AllocError> {
    let mut text = Vec::new(alloc);
    for side in SIDES {
        push_sentence(&mut text, &[Bytes(side.letter())])?;
        if let Some(lost) = following.lost {
            if let Some(after) = lost.after {
                push_address(&mut text, after.line)?;
            }
            push_address(&mut text, lost.passes.of(side).line)?;
        }
        if let Some(shown) = shown {
            push_addresses(&mut text, shown.of(side))?;
        }
        push_sentence(&mut text, &[Bytes(b"\n")])?;
    }
    Ok(text)
}

// Adds those of the lines of a run that are shown.
fn push_addresses(text: &mut Vec<u8>, shown: &Shown) -> Result<(), AllocError> {
    for cut in shown.cuts.iter() {
        push_address(text, cut.done)?;
    }
    for cell in shown.cells.iter() {
        if cell.line.is_step() {
            push_address(text, cell.line)?;
        }
        if let Some(done) = cell.done {
            push_address(text, done)?;
        }
    }
    Ok(())
}

// Adds that of an instruction.
fn push_address(text: &mut Vec<u8>, line: Line) -> Result<(), AllocError> {
    push_sentence(text, &[Bytes(b" "), Bytes(line.pc)])
}
