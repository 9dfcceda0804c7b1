// What all tries come to: the first value of each outcome, and the table of the outcomes.
ghost use Rattle.std.specs.Prelude.{◌≡◌, ◌++◌, OnOk};
ghost use Rattle.std.specs.List.{flat_map};
ghost use Rattle.show_run.specs.ToldTries.{first_line, first_value};

use crate::told_tries::endings::push_ending;
use crate::told_tries::requests::Request;
use crate::told_tries::written::push_written;
use crate::value_tries::groups::{Gathering, Group};
use crate::value_tries::outcomes::Ending;
use crate::value_tries::settings::Setting;
use crate::value_tries::spans::Span;
use std::alloc::{AllocError, Global};
use text_errors::numbers::push_count;
use tool_texts::Said::{Bytes, Number};
use tool_texts::push_sentence;

/// Adds a line for each group: its first value, or `-` where there is no session with its values.
pub fn push_firsts(text: &mut Vec<u8>, groups: &[Group]) -> Result<(), AllocError>
    ensures { OnOk result (text.new.items
        ≡ text.old.items ++ flat_map first_line groups.now) }
{
    for group in groups {
        push_first(text, group)?;
    }
    Ok(())
}

fn push_first(text: &mut Vec<u8>, group: &Group) -> Result<(), AllocError>
    ensures { OnOk result (text.new.items ≡ text.old.items ++ first_line group.now) }
{
    match first_value(group) {
        Some(value) => push_sentence(text, &[Number(value), Bytes(b"\n")]),
        None => push_sentence(text, &[Bytes(b"-\n")]),
    }
}

// The first value of a group; `None` exactly where there is no session with it.
fn first_value(group: &Group) -> Option<u64>
    ensures { result ≡ first_value group.now }
{
    match group.outcome.ending {
        Ending::NoSession => None,
        Ending::Stopped(_) | Ending::NoBoot { .. } => {
            let first = group.spans.as_slice().first()?;
            Some(first.first)
        }
    }
}

/// The table of the outcomes.
pub fn table_text(
    alloc: Global,
    request: Request,
    gathering: &Gathering,
) -> Result<Vec<u8>, AllocError> {
    let mut text = Vec::new(alloc);
    push_sentence(&mut text, &[Bytes(request.name), Bytes(b": ")])?;
    push_count(&mut text, gathering.tried, b"value")?;
    push_setting(&mut text, request.setting)?;
    push_count(&mut text, gathering.groups.len() as u64, b"outcome")?;
    push_sentence(&mut text, &[Bytes(b"\n")])?;
    for (i, group) in gathering.groups.iter().enumerate() {
        push_sentence(
            &mut text,
            &[Bytes(b"\noutcome "), Number(i as u64 + 1), Bytes(b": ")],
        )?;
        push_group(&mut text, request, gathering.tried, group)?;
    }
    Ok(text)
}

// What is set anew.
fn push_setting(text: &mut Vec<u8>, setting: Setting) -> Result<(), AllocError> {
    match setting {
        Setting::Tick => push_sentence(text, &[Bytes(b" of the period of the clock, ")]),
        Setting::Key(number) => push_sentence(
            text,
            &[Bytes(b" of the step of key "), Number(number), Bytes(b", ")],
        ),
        Setting::Priority(task) => push_sentence(
            text,
            &[
                Bytes(b" of the priority of task "),
                Number(task),
                Bytes(b", "),
            ],
        ),
        Setting::Stack(task) => push_sentence(
            text,
            &[Bytes(b" of the stack of task "), Number(task), Bytes(b", ")],
        ),
    }
}

// An outcome: its values, how its runs ended, and what they wrote.
fn push_group(
    text: &mut Vec<u8>,
    request: Request,
    tried: u64,
    group: &Group,
) -> Result<(), AllocError> {
    push_sentence(text, &[Number(group.count), Bytes(b" of ")])?;
    push_count(text, tried, b"value")?;
    push_ends(text, group)?;
    push_values(text, request.most_spans, group)?;
    push_ending(text, request.setting, group)?;
    match group.outcome.ending {
        Ending::Stopped(_) => {
            push_written(text, group.outcome.bytes.as_slice(), request.most_lines)
        }
        Ending::NoBoot { .. } | Ending::NoSession => Ok(()),
    }
}

// The first and the last of several values.
fn push_ends(text: &mut Vec<u8>, group: &Group) -> Result<(), AllocError> {
    if let [first, .., last] | [first @ last] = group.spans.as_slice() {
        if group.count > 1 {
            push_sentence(
                text,
                &[
                    Bytes(b", the first "),
                    Number(first.first),
                    Bytes(b", the last "),
                    Number(last.last),
                ],
            )?;
        }
    }
    push_sentence(text, &[Bytes(b"\n")])
}

// The values, as far as they are shown.
fn push_values(text: &mut Vec<u8>, most_spans: u64, group: &Group) -> Result<(), AllocError> {
    let word: &[u8] = if group.count == 1 {
        b"  value "
    } else {
        b"  values "
    };
    push_sentence(text, &[Bytes(word)])?;
    let mut count = 0u64;
    for span in group.spans.as_slice() {
        if count < most_spans {
            push_span(text, count > 0, *span)?;
        }
        count = count.saturating_add(1);
    }
    if count > most_spans {
        push_sentence(text, &[Bytes(b", and ")])?;
        push_count(text, count - most_spans, b"span")?;
        push_sentence(text, &[Bytes(b" more")])?;
    }
    push_sentence(text, &[Bytes(b"\n")])
}

// Values in a row, after others or as the first.
fn push_span(text: &mut Vec<u8>, is_later: bool, span: Span) -> Result<(), AllocError> {
    if is_later {
        push_sentence(text, &[Bytes(b", ")])?;
    }
    push_sentence(text, &[Number(span.first)])?;
    if span.first < span.last {
        push_sentence(text, &[Bytes(b"-"), Number(span.last)])?;
    }
    Ok(())
}
