// The picture of a run, by the words of its log.
#![tactic(auto)]

pub mod calls;
pub mod drawing;
pub mod elements;
pub mod forms;
pub mod lanes;
pub mod legend;
pub mod lengths;
pub mod log_lines;
pub mod logs;
pub mod packets;
pub mod parties;
pub mod picture;
pub mod places;
pub mod rows;
pub mod states;
pub mod story;
pub mod texts;
pub mod wrapping;

use drawing::draw;
use forms::asked_of;
use logs::{NoLog, read_log};
use std::alloc::{AllocError, Global};
use story::story_of;
use tool_texts::Said::{Bytes, Number};
use tool_texts::{Said, ToolText, push_sentence};

/// The picture of the run of a machine with a kernel, as an SVG, by the text of its log. A column is the lane of a task or device, and a row is a
/// step in which something happened. The words of a row are in a column of their own.
///
/// Before the log may be a line `width N`: then the picture is a part of a document, so wide, with a box for each row that has its step as
/// `data-step`; and after it a line `rows FIRST COUNT`: then so many rows are drawn, after FIRST others.
///
/// A text that is no log, and the log of a bare machine, are wrong: `* 2`, and a line that says why.
pub fn run_picture(alloc: Global, text: &[u8]) -> Result<ToolText, AllocError> {
    let asked = asked_of(text);
    match read_log(alloc, asked.lines, asked.log) {
        Ok(log) => {
            let story = story_of(alloc, &log)?;
            Ok(ToolText {
                is_wrong: false,
                bytes: draw(alloc, asked.form, &log, story)?,
            })
        }
        Err(NoLog::Line(n)) => wrong(
            alloc,
            &[
                Bytes(b"* 2\npicture: line "),
                Number(n),
                Bytes(b" is no line of a log\n"),
            ],
        ),
        Err(NoLog::Bare) => wrong(
            alloc,
            &[Bytes(
                b"* 2\npicture: a bare machine has no tasks and packets to be drawn; bin/log shows its steps\n",
            )],
        ),
        Err(NoLog::WantMemory) => Err(AllocError),
    }
}

// What is wrong.
fn wrong(alloc: Global, parts: &[Said]) -> Result<ToolText, AllocError> {
    let mut bytes = Vec::new(alloc);
    push_sentence(&mut bytes, parts)?;
    Ok(ToolText {
        is_wrong: true,
        bytes,
    })
}
