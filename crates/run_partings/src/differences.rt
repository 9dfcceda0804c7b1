// In what two machines differ before their first step.

use crate::listings::{Listed, first_other_line, listing_of};
use crate::sides::Both;
use log_words::bytes::{hex_digits, push_shown_byte};
use ram_disc::Name;
use session_text::{LineForm, Session};
use std::alloc::{AllocError, Global};
use tool_texts::Said::{Bytes, Number};
use tool_texts::{Said, push_sentence};

/// The byte address at which the program of a bare machine begins.
const FIRST_CODE: u64 = 800;

/// In what two sessions differ, a line each; nothing where their machines and what is typed are the same.
#[derive(Drop)]
pub struct Differences {
    /// The lines.
    pub lines: Vec<u8>,
    /// Whether the machines differ.
    pub are_other_machines: bool,
}

/// In what two sessions differ.
pub fn find_differences(
    alloc: Global,
    sessions: Both<&Session>,
) -> Result<Differences, AllocError> {
    let mut lines = Vec::new(alloc);
    let Both { a, b } = sessions;
    push_numbers(&mut lines, a, b)?;
    push_tasks(alloc, &mut lines, a, b)?;
    if a.bare && b.bare {
        push_code(alloc, &mut lines, a, b)?;
    }
    push_files(alloc, &mut lines, a, b)?;
    let are_other_machines = !lines.is_empty();
    push_typed(alloc, &mut lines, a, b)?;
    Ok(Differences {
        lines,
        are_other_machines,
    })
}

// Adds that something is one thing in A and another in B.
fn push_other(
    lines: &mut Vec<u8>,
    what: &[Said],
    a: &[Said],
    b: &[Said],
) -> Result<(), AllocError> {
    push_sentence(lines, &[Bytes(b"  ")])?;
    push_sentence(lines, what)?;
    push_sentence(lines, &[Bytes(b": ")])?;
    push_sentence(lines, a)?;
    push_sentence(lines, &[Bytes(b" in A, ")])?;
    push_sentence(lines, b)?;
    push_sentence(lines, &[Bytes(b" in B\n")])
}

// Adds what the first lines of the sessions say of their machines.
fn push_numbers(lines: &mut Vec<u8>, a: &Session, b: &Session) -> Result<(), AllocError> {
    if a.version != b.version {
        push_other(
            lines,
            &[Bytes(b"the version")],
            &[Number(u64::from(a.version))],
            &[Number(u64::from(b.version))],
        )?;
    }
    if a.store != b.store {
        push_other(
            lines,
            &[Bytes(b"the store")],
            &[Number(u64::from(a.store)), Bytes(b" words")],
            &[Number(u64::from(b.store)), Bytes(b" words")],
        )?;
    }
    push_flag(lines, b"the kernel", [b"one", b"none"], !a.bare, !b.bare)?;
    if !a.bare && !b.bare && a.period != b.period {
        push_other(
            lines,
            &[Bytes(b"the clock")],
            &[
                Bytes(b"a tick every "),
                Number(u64::from(a.period)),
                Bytes(b" steps"),
            ],
            &[
                Bytes(b"a tick every "),
                Number(u64::from(b.period)),
                Bytes(b" steps"),
            ],
        )?;
    }
    push_flag(
        lines,
        b"residents",
        [b"some", b"none"],
        a.resident,
        b.resident,
    )?;
    push_flag(
        lines,
        b"reports of faults",
        [b"by task 2", b"none"],
        a.debug,
        b.debug,
    )
}

// Adds that one of both has something, which has these words where it is there and where it is not.
fn push_flag(
    lines: &mut Vec<u8>,
    what: &[u8],
    words: [&[u8]; 2],
    a: bool,
    b: bool,
) -> Result<(), AllocError> {
    if a == b {
        return Ok(());
    }
    let [there, absent] = words;
    let (a, b) = if a { (there, absent) } else { (absent, there) };
    push_other(lines, &[Bytes(what)], &[Bytes(a)], &[Bytes(b)])
}

// Adds the tasks that differ, by their numbers.
fn push_tasks(
    alloc: Global,
    lines: &mut Vec<u8>,
    a: &Session,
    b: &Session,
) -> Result<(), AllocError> {
    for id in 1..=MOST_TASKS {
        let own = task_words(alloc, a, id)?;
        let other = task_words(alloc, b, id)?;
        if own.as_slice() != other.as_slice() {
            push_other(
                lines,
                &[Bytes(b"task "), Number(u64::from(id))],
                &[Bytes(own.as_slice())],
                &[Bytes(other.as_slice())],
            )?;
        }
    }
    Ok(())
}

/// The highest number of a task.
const MOST_TASKS: u32 = 63;

// What a session says of the task with a number.
fn task_words(alloc: Global, session: &Session, number: u32) -> Result<Vec<u8>, AllocError> {
    let mut words = Vec::new(alloc);
    for line in session.lines.as_slice() {
        if let LineForm::Task {
            id,
            pri,
            stack,
            names,
        } = &line.form
        {
            if *id == number {
                words.clear();
                push_sentence(
                    &mut words,
                    &[
                        Bytes(b"priority "),
                        Number(u64::from(*pri)),
                        Bytes(b", stack "),
                        Number(u64::from(*stack)),
                        Bytes(b","),
                    ],
                )?;
                push_names(&mut words, b" ", names.as_slice())?;
            }
        }
    }
    if words.is_empty() {
        push_sentence(&mut words, &[Bytes(b"none")])?;
    }
    Ok(words)
}

// Adds names, with something before each.
fn push_names(text: &mut Vec<u8>, before: &[u8], names: &[Name]) -> Result<(), AllocError> {
    for name in names {
        push_sentence(text, &[Bytes(before), Bytes(name.bytes())])?;
    }
    Ok(())
}

/// Adds the programs of a task of a session, with `+` between them, in brackets and with a blank before; nothing where the session has no task with
/// this number.
pub fn push_programs(text: &mut Vec<u8>, session: &Session, number: u64) -> Result<(), AllocError> {
    for line in session.lines.as_slice() {
        if let LineForm::Task { id, names, .. } = &line.form {
            if u64::from(*id) == number {
                if let Some((first, others)) = names.as_slice().split_first() {
                    push_sentence(text, &[Bytes(b" ("), Bytes(first.bytes())])?;
                    push_names(text, b"+", others)?;
                    push_sentence(text, &[Bytes(b")")])?;
                }
                return Ok(());
            }
        }
    }
    Ok(())
}

// Adds the first byte in which the programs of two bare machines differ.
fn push_code(
    alloc: Global,
    lines: &mut Vec<u8>,
    a: &Session,
    b: &Session,
) -> Result<(), AllocError> {
    let own = code_of(alloc, a)?;
    let other = code_of(alloc, b)?;
    if own.as_slice() == other.as_slice() {
        return Ok(());
    }
    let place = common_length(own.as_slice(), other.as_slice());
    let mut left = Vec::new(alloc);
    push_code_byte(&mut left, own.as_slice().get(place))?;
    let mut right = Vec::new(alloc);
    push_code_byte(&mut right, other.as_slice().get(place))?;
    push_other(
        lines,
        &[
            Bytes(b"the program, byte "),
            Number(FIRST_CODE.saturating_add(place as u64)),
        ],
        &[Bytes(left.as_slice())],
        &[Bytes(right.as_slice())],
    )
}

// The bytes of a bare machine's program.
fn code_of(alloc: Global, session: &Session) -> Result<Vec<u8>, AllocError> {
    let mut code = Vec::new(alloc);
    for line in session.lines.as_slice() {
        if let LineForm::Code(bytes) = &line.form {
            code.extend_from_slice(bytes.as_slice())?;
        }
    }
    Ok(code)
}

/// How many bytes are the same at the front of both texts.
pub fn common_length(a: &[u8], b: &[u8]) -> usize {
    a.iter().zip(b.iter()).take_while(|(x, y)| x == y).count()
}

// Adds a byte of a program, or that it ends there.
fn push_code_byte(text: &mut Vec<u8>, byte: Option<&u8>) -> Result<(), AllocError> {
    match byte {
        Some(byte) => push_sentence(text, &[Bytes(&hex_digits(*byte)), Bytes(b" in hex")]),
        None => push_sentence(text, &[Bytes(b"its end")]),
    }
}

// Adds the files that differ: those of A, and then those that B alone has.
fn push_files(
    alloc: Global,
    lines: &mut Vec<u8>,
    a: &Session,
    b: &Session,
) -> Result<(), AllocError> {
    for line in a.lines.as_slice() {
        if let LineForm::File { name, bytes } = &line.form {
            match file_of(b, name) {
                Some(other) => push_file(alloc, lines, name, bytes.as_slice(), other)?,
                None => push_file_of_one(lines, name, [b"there", b"none"])?,
            }
        }
    }
    for line in b.lines.as_slice() {
        if let LineForm::File { name, .. } = &line.form {
            if file_of(a, name).is_none() {
                push_file_of_one(lines, name, [b"none", b"there"])?;
            }
        }
    }
    Ok(())
}

// The bytes of a session's file; `None` where it has none of this name.
fn file_of<'a>(session: &'a Session, wanted: &Name) -> Option<&'a [u8]> {
    for line in session.lines.as_slice() {
        if let LineForm::File { name, bytes } = &line.form {
            if name.bytes() == wanted.bytes() {
                return Some(bytes.as_slice());
            }
        }
    }
    None
}

// Adds that one of both has a file, by these words for A and B.
fn push_file_of_one(lines: &mut Vec<u8>, name: &Name, words: [&[u8]; 2]) -> Result<(), AllocError> {
    let [a, b] = words;
    push_other(
        lines,
        &[Bytes(b"the file "), Bytes(name.bytes())],
        &[Bytes(a)],
        &[Bytes(b)],
    )
}

// Adds a file of both, if its bytes differ: the first instruction that is another one where both are programs, and else the first line.
fn push_file(
    alloc: Global,
    lines: &mut Vec<u8>,
    name: &Name,
    a: &[u8],
    b: &[u8],
) -> Result<(), AllocError> {
    if a == b {
        return Ok(());
    }
    if let (Some(own), Some(other)) = (listing_of(alloc, a)?, listing_of(alloc, b)?) {
        let found = first_other_line(own.as_slice(), other.as_slice(), true);
        let mut left = Vec::new(alloc);
        push_instruction(&mut left, found.a)?;
        let mut right = Vec::new(alloc);
        push_instruction(&mut right, found.b)?;
        return push_other(
            lines,
            &[Bytes(b"the program "), Bytes(name.bytes())],
            &[Bytes(left.as_slice())],
            &[Bytes(right.as_slice())],
        );
    }
    let found = first_other_line(a, b, false);
    push_other(
        lines,
        &[
            Bytes(b"the file "),
            Bytes(name.bytes()),
            Bytes(b", line "),
            Number(found.number),
        ],
        &[Bytes(b"\""), Bytes(found.a.text), Bytes(b"\"")],
        &[Bytes(b"\""), Bytes(found.b.text), Bytes(b"\"")],
    )
}

// Adds an instruction of a listing with its offset, or that the program ends there.
fn push_instruction(text: &mut Vec<u8>, line: Listed) -> Result<(), AllocError> {
    if line.text.is_empty() {
        return push_sentence(text, &[Bytes(b"its end")]);
    }
    push_sentence(
        text,
        &[
            Bytes(line.words()),
            Bytes(b" at offset "),
            Bytes(line.offset()),
        ],
    )
}

// Adds the first key that is another one.
fn push_typed(
    alloc: Global,
    lines: &mut Vec<u8>,
    a: &Session,
    b: &Session,
) -> Result<(), AllocError> {
    let own = a.keys.as_slice();
    let other = b.keys.as_slice();
    let same = own
        .iter()
        .zip(other.iter())
        .take_while(|(x, y)| x.0 == y.0 && x.1 == y.1)
        .count();
    if same >= own.len() && same >= other.len() {
        return Ok(());
    }
    let mut left = Vec::new(alloc);
    push_key(&mut left, own.get(same))?;
    let mut right = Vec::new(alloc);
    push_key(&mut right, other.get(same))?;
    push_other(
        lines,
        &[Bytes(b"what is typed")],
        &[Bytes(left.as_slice())],
        &[Bytes(right.as_slice())],
    )
}

// Adds a key with its step, or that there are no more.
fn push_key(text: &mut Vec<u8>, key: Option<&(u32, u8)>) -> Result<(), AllocError> {
    let Some((step, byte)) = key else {
        return push_sentence(text, &[Bytes(b"no more")]);
    };
    push_sentence(text, &[Bytes(b"\"")])?;
    push_shown_byte(text, *byte)?;
    push_sentence(text, &[Bytes(b"\" at step "), Number(u64::from(*step))])
}
