// What is said of a request in which something is wrong.
ghost use Rattle.std.specs.Prelude.{◌≡◌, ◌++◌, IfOk, OnOk};
ghost use Rattle.session_making.specs.Refusals.{field_line, field_of, head_text, is_of_file, is_whole, item_text, number_line, one_word, place_text, refused_text, status_of, two_words};

use crate::stops::Place;
use crate::words::push_words;
use crate::wrongs::Wrong;
use std::alloc::{AllocError, Global};
use tool_texts::Said::{Bytes, Number};
use tool_texts::push_sentence;

/// What is said: a line with a status and where something is wrong, and then what is wrong.
pub fn refused_text(alloc: Global, place: &Place, wrong: Wrong) -> Result<Vec<u8>, AllocError>
    ensures { IfOk result (λ v. v.items ≡ refused_text place.now wrong.entry) }
{
    let mut text = Vec::new(alloc);
    push_head(&mut text, place, &wrong)?;
    if is_whole(&wrong) {
        push_words(alloc, &mut text, wrong)?;
        return Ok(text);
    }
    push_place(&mut text, place)?;
    push_words(alloc, &mut text, wrong)?;
    text.push(b'\n')?;
    Ok(text)
}

// Adds the first line: the status, and where something is wrong.
fn push_head(text: &mut Vec<u8>, place: &Place, wrong: &Wrong) -> Result<(), AllocError>
    ensures { OnOk result (text.new.items ≡ text.old.items ++ head_text place.now wrong.now) }
{
    let status = status_of(wrong);
    match place {
        Place::Request => push_field(text, status, field_of(wrong)),
        Place::Item { number, .. } => push_number(text, status, *number),
    }
}

// The first line, where the request as a whole is wrong in this part.
fn push_field(text: &mut Vec<u8>, status: u64, field: &[u8]) -> Result<(), AllocError>
    ensures { OnOk result (text.new.items ≡ text.old.items ++ field_line status field.now) }
{
    push_sentence(
        text,
        &[
            Bytes(b"* "),
            Number(status),
            Bytes(b" "),
            Bytes(field),
            Bytes(b"\n"),
        ],
    )
}

// The first line, where this item is wrong.
fn push_number(text: &mut Vec<u8>, status: u64, number: usize) -> Result<(), AllocError>
    ensures { OnOk result (text.new.items ≡ text.old.items ++ number_line status number) }
{
    push_sentence(
        text,
        &[
            Bytes(b"* "),
            Number(status),
            Bytes(b" item "),
            Number(number as u64),
            Bytes(b"\n"),
        ],
    )
}

// The status with which a command ends.
fn status_of(wrong: &Wrong) -> u64
    ensures { result ≡ status_of wrong.now }
{
    if is_of_file(wrong) { 1 } else { 2 }
}

// Whether a file is wrong, and not the words.
fn is_of_file(wrong: &Wrong) -> bool
    ensures { result ≡ is_of_file wrong.now }
{
    match wrong {
        Wrong::NoFile(_)
        | Wrong::Program(_)
        | Wrong::NoModule { .. }
        | Wrong::HunkCount { .. }
        | Wrong::NoRoom { .. }
        | Wrong::FileByte { .. } => true,
        _ => false,
    }
}

// Whether the words of what is wrong are all lines.
fn is_whole(wrong: &Wrong) -> bool
    ensures { result ≡ is_whole wrong.now }
{
    matches!(wrong, Wrong::Program(_) | Wrong::NoModule { .. })
}

// Which part of a request is wrong.
fn field_of(wrong: &Wrong) -> &'static [u8]
    ensures { result.now ≡ field_of wrong.now }
{
    match wrong {
        Wrong::NoBundle | Wrong::NoRequest => b"bundle",
        Wrong::NoVersion(_) => b"version",
        Wrong::StoreSize { .. } | Wrong::NoRoom { .. } => b"store",
        Wrong::NoBareSteps | Wrong::NoSteps(_) | Wrong::Steps(_) => b"steps",
        Wrong::Period(_) => b"period",
        _ => b"programs",
    }
}

// Adds who speaks, and the item.
fn push_place(text: &mut Vec<u8>, place: &Place) -> Result<(), AllocError>
    ensures { OnOk result (text.new.items ≡ text.old.items ++ place_text place.now) }
{
    match place {
        Place::Request => push_sentence(text, &[Bytes(b"session: ")]),
        Place::Item { number, word, next } => {
            push_item(text, *number, word.bytes(), next.bytes())
        }
    }
}

// Adds an item: its number, and its first words.
fn push_item<'t>(
    text: &mut Vec<u8>,
    number: usize,
    word: &'t [u8],
    next: &'t [u8],
) -> Result<(), AllocError>
    ensures { OnOk result (text.new.items ≡ text.old.items ++ item_text number word.now next.now) }
{
    if next.is_empty() {
        return push_one_word(text, number, word);
    }
    push_two_words(text, number, word, next)
}

fn push_one_word(text: &mut Vec<u8>, number: usize, word: &[u8]) -> Result<(), AllocError>
    ensures { OnOk result (text.new.items ≡ text.old.items ++ one_word number word.now) }
{
    push_sentence(
        text,
        &[
            Bytes(b"session: item "),
            Number(number as u64),
            Bytes(b" ("),
            Bytes(word),
            Bytes(b"): "),
        ],
    )
}

fn push_two_words<'t>(
    text: &mut Vec<u8>,
    number: usize,
    word: &'t [u8],
    next: &'t [u8],
) -> Result<(), AllocError>
    ensures { OnOk result (text.new.items ≡ text.old.items ++ two_words number word.now next.now) }
{
    push_sentence(
        text,
        &[
            Bytes(b"session: item "),
            Number(number as u64),
            Bytes(b" ("),
            Bytes(word),
            Bytes(b" "),
            Bytes(next),
            Bytes(b"): "),
        ],
    )
}
