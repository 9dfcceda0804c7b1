// Tasks that wait for ever.
ghost use Rattle.std.specs.Prelude.{◌<◌, ◌≤◌, length, IfSome};

use crate::scenes::Scene;
use log_words::bytes::{split_at_blank, split_at_text};
use module_text::number;
use run_names::Party;
use std::alloc::AllocError;
use tool_texts::Said::Bytes;
use tool_texts::push_sentence;

impl Scene<'_> {
    /// Adds which tasks wait for ever, with their programs, and which of them wait for one another.
    pub fn push_stuck(&self, text: &mut Vec<u8>) -> Result<(), AllocError> {
        let stuck = self.push_stuck_line(text)?;
        self.push_cycles(text)?;
        if stuck < 2 || !self.has_none_out() {
            return Ok(());
        }
        push_sentence(
            text,
            &[Bytes(
                b"none of these has sent a packet that did not come back: they wait for requests, or a send is missing\n",
            )],
        )
    }

    // Adds the line that says which tasks wait for ever, if there is one, with their programs; the answer is how many tasks it names.
    fn push_stuck_line(&self, text: &mut Vec<u8>) -> Result<u32, AllocError> {
        let Some((why, tasks)) = split_at_text(self.plain.stuck, b"; ") else {
            return Ok(0);
        };
        push_sentence(text, &[Bytes(why)])?;
        let mut told = 0u32;
        let mut rest = tasks;
        while let Some((words, others)) = first_part(rest) {
            self.push_one(text, words)?;
            told = told.saturating_add(1);
            rest = others;
        }
        push_sentence(text, &[Bytes(b"\n")])?;
        Ok(told)
    }

    // Adds what is said of one task, which begins with its number.
    fn push_one(&self, text: &mut Vec<u8>, words: &[u8]) -> Result<(), AllocError> {
        push_sentence(text, &[Bytes(b"; ")])?;
        match task_of(words) {
            Some((id, does)) => {
                self.push_name(text, Party::Task(id))?;
                push_sentence(text, &[Bytes(b" "), Bytes(does)])
            }
            None => push_sentence(text, &[Bytes(words)]),
        }
    }

    // Whether no task that waits for a packet has one with somebody else.
    fn has_none_out(&self) -> bool {
        let packets = self.lists.out.as_slice();
        self.lists.tasks.as_slice().iter().all(|task| {
            let party = Party::Task(task.id);
            !self.waits_alone(task) || packets.iter().all(|packet| packet.from != party)
        })
    }
}

// What comes before the first semicolon, or all where there is none, and what comes after it; `None` where there is nothing.
fn first_part(text: &[u8]) -> Option<(&[u8], &[u8])>
    ensures { IfSome result (λ x. length x.1.now < length text.now) }
{
    if text.is_empty() {
        return None;
    }
    match text.iter().position(|c| *c == b';') {
        Some(end) => Some((&text[..end], without_blank(&text[end + 1..]))),
        None => Some((text, &[])),
    }
}

// A text without the blank at its beginning.
fn without_blank(text: &[u8]) -> &[u8]
    ensures { length result.now ≤ length text.now }
{
    text.strip_prefix(b" ").unwrap_or(text)
}

// The number of the task with which words begin, and what it does.
fn task_of(words: &[u8]) -> Option<(u32, &[u8])> {
    let (_, rest) = split_at_blank(words)?;
    let (digits, does) = split_at_blank(rest)?;
    Some((u32::try_from(number(digits)?).ok()?, does))
}
