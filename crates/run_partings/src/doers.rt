// Who does what a line says.

use crate::log_lines::Line;
use module_text::after_word;
use run_pictures::texts::{contains, up_to};
use std::alloc::AllocError;
use tool_texts::Said::Bytes;
use tool_texts::push_sentence;

/// Somebody who does things, in an order that is compared.
#[derive(Clone, Copy)]
pub enum Doer<'a> {
    /// All together: the order of what everybody does.
    Order,
    /// The console, which gets bytes.
    Console,
    /// The keyboard, which gives keys.
    Keyboard,
    /// The program of a bare machine.
    Program,
    /// The task with this number.
    Task(&'a [u8]),
    /// Another one who takes packets, by its name.
    Named(&'a [u8]),
}

impl<'a> Doer<'a> {
    /// Whether it is the same one.
    pub fn is(self, other: Doer) -> bool {
        match (self, other) {
            (Doer::Order, Doer::Order)
            | (Doer::Console, Doer::Console)
            | (Doer::Keyboard, Doer::Keyboard)
            | (Doer::Program, Doer::Program) => true,
            (Doer::Task(own), Doer::Task(task)) => own == task,
            (Doer::Named(own), Doer::Named(name)) => own == name,
            _ => false,
        }
    }

    /// The number of the task whose instructions lead to what it does; `-` is that of the program.
    pub fn task(self) -> Option<&'a [u8]> {
        match self {
            Doer::Task(task) => Some(task),
            Doer::Program => Some(b"-"),
            Doer::Order | Doer::Console | Doer::Keyboard | Doer::Named(_) => None,
        }
    }
}

/// The task with a number, or the program of a bare machine where that is `-`.
pub fn doer_of_task(task: &[u8]) -> Doer<'_> {
    if task == b"-".as_slice() {
        Doer::Program
    } else {
        Doer::Task(task)
    }
}

/// Who does what a line says; `None` where that is only the order of things.
pub fn doer_of<'a>(line: &Line<'a>) -> Option<Doer<'a>> {
    match line.kind {
        b"console" => Some(Doer::Console),
        b"take" => Some(taker(line.words)),
        b"return" => doer_of_return(line),
        b"run" | b"tick" | b"key" | b"step" => None,
        _ => Some(doer_of_task(line.task)),
    }
}

// Who gives a packet back. That of the clock and the output come when their time is.
fn doer_of_return<'a>(line: &Line<'a>) -> Option<Doer<'a>> {
    if contains(b" from the keyboard back to ", line.words) {
        return Some(Doer::Keyboard);
    }
    if contains(b" from the clock back to ", line.words)
        || contains(b" from the output back to ", line.words)
    {
        return None;
    }
    Some(doer_of_task(line.task))
}

// Who takes a packet, by the words for it.
fn taker(words: &[u8]) -> Doer<'_> {
    let name = up_to(b" takes ", words);
    match after_word(b"task ", name) {
        Some(task) => Doer::Task(task),
        None => Doer::Named(name),
    }
}

/// Adds who it is.
pub fn push_doer(text: &mut Vec<u8>, doer: Doer) -> Result<(), AllocError> {
    match doer {
        Doer::Order => push_sentence(text, &[Bytes(b"the order")]),
        Doer::Console => push_sentence(text, &[Bytes(b"the console")]),
        Doer::Keyboard => push_sentence(text, &[Bytes(b"the keyboard")]),
        Doer::Program => push_sentence(text, &[Bytes(b"the program")]),
        Doer::Task(task) => push_sentence(text, &[Bytes(b"task "), Bytes(task)]),
        Doer::Named(name) => push_sentence(text, &[Bytes(name)]),
    }
}
