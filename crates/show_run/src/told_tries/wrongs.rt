// What is told where nothing is tried.
use crate::no_machines::{wrong_part, wrong_words};
use crate::told_tries::endings::range_words;
use crate::told_tries::values::WrongValues;
use crate::value_tries::settings::Setting;
use session_text::{LineForm, Session};
use std::alloc::{AllocError, Global};
use tool_texts::Said::{Bytes, Number};
use tool_texts::{Said, ToolText, push_sentence};

/// The script whose tool this is.
pub const SCRIPT: &[u8] = b"tries";

/// What is told where the word that is to be values is none.
pub fn wrong_values(
    alloc: Global,
    word: &[u8],
    wrong: WrongValues,
) -> Result<ToolText, AllocError> {
    match wrong {
        WrongValues::NoValues => said(
            alloc,
            &[
                Bytes(b"values are numbers with commas between them, or as 20-520, and not "),
                Bytes(word),
            ],
        ),
        WrongValues::Missing => said(alloc, &[Bytes(b"a value is missing in "), Bytes(word)]),
        WrongValues::NoValue(part) => said(
            alloc,
            &[
                Bytes(
                    b"a value is a number of at most 10 digits, or two of them as 20-520, and not ",
                ),
                Bytes(part),
            ],
        ),
        WrongValues::Backwards(part) => said(
            alloc,
            &[
                Bytes(b"in "),
                Bytes(part),
                Bytes(b" the last value is less than the first"),
            ],
        ),
    }
}

fn said(alloc: Global, why: &[Said]) -> Result<ToolText, AllocError> {
    wrong_part(alloc, b" values", SCRIPT, why)
}

/// What is told where a session has nothing that could be set anew.
pub fn not_there(
    alloc: Global,
    setting: Setting,
    name: &[u8],
    session: &Session,
) -> Result<ToolText, AllocError> {
    let mut words = Vec::new(alloc);
    push_lack(&mut words, setting, name, session)?;
    wrong_words(alloc, SCRIPT, &[Bytes(words.as_slice())])
}

/// What is told where a session may not have such a value.
pub fn out_of_range(alloc: Global, setting: Setting, value: u64) -> Result<ToolText, AllocError> {
    wrong_words(
        alloc,
        SCRIPT,
        &[
            Bytes(range_words(setting)),
            Bytes(b", and not "),
            Number(value),
        ],
    )
}

// What a session lacks.
fn push_lack(
    text: &mut Vec<u8>,
    setting: Setting,
    name: &[u8],
    session: &Session,
) -> Result<(), AllocError> {
    match setting {
        Setting::Tick => push_sentence(
            text,
            &[
                Bytes(b"a bare machine has no clock, so "),
                Bytes(name),
                Bytes(b" has no period"),
            ],
        ),
        Setting::Key(number) => {
            push_sentence(text, &[Bytes(name)])?;
            push_keys(text, session.keys.as_slice().len() as u64)?;
            push_sentence(text, &[Bytes(b", and no key "), Number(number)])
        }
        Setting::Priority(task) | Setting::Stack(task) => {
            push_sentence(text, &[Bytes(name)])?;
            push_tasks(text, session)?;
            push_sentence(text, &[Bytes(b", and no task "), Number(task)])
        }
    }
}

// How many keys there are.
fn push_keys(text: &mut Vec<u8>, count: u64) -> Result<(), AllocError> {
    match count {
        0 => push_sentence(text, &[Bytes(b" has no keys")]),
        1 => push_sentence(text, &[Bytes(b" has one key")]),
        _ => push_sentence(text, &[Bytes(b" has the keys 1 to "), Number(count)]),
    }
}

// Which tasks there are.
fn push_tasks(text: &mut Vec<u8>, session: &Session) -> Result<(), AllocError> {
    let mut before: &[u8] = b" has the tasks ";
    for line in session.lines.as_slice() {
        if let LineForm::Task { id, .. } = &line.form {
            push_sentence(text, &[Bytes(before), Number(u64::from(*id))])?;
            before = b", ";
        }
    }
    if before == b", ".as_slice() {
        return Ok(());
    }
    push_sentence(text, &[Bytes(b" has no tasks")])
}
