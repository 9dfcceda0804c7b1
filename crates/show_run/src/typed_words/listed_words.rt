// Words of the store.

use crate::typed_words::addresses::{address_digits, digits_of};
use crate::typed_words::cases::Case;
use crate::typed_words::lines::push_refusal;
use crate::typed_words::registers::{Away, away_of, is_address, register_place, register_value};
use crate::typed_words::sentences::push_said;
use debugger::{Order, order_of};
use itoa::Buffer;
use module_text::number;
use std::alloc::{AllocError, Global};
use tool_texts::Said::{Bytes, Number};
use tool_texts::{push_blanks, push_sentence};
use tripos_machine::Machine;
use word_store::signed;

/// How wide a signed number is shown.
const WIDTH: usize = 11;

/// The digits of the word address of a place: that of a label, or what a register has, and so many words more or less. Where there is none, this
/// is said.
pub fn word_digits(
    alloc: Global,
    case: &Case,
    machine: &Machine,
    place: &[u8],
    text: &mut Vec<u8>,
) -> Result<Option<Vec<u8>>, AllocError> {
    match register_place(place) {
        Some((register, away)) => {
            let value = register_value(register, machine.regs());
            digits_from(alloc, place, value, away, text)
        }
        None => labelled_digits(alloc, case, machine, place, text),
    }
}

// Those of a place that is so far away from what a register has.
fn digits_from(
    alloc: Global,
    place: &[u8],
    value: u32,
    away: &[u8],
    text: &mut Vec<u8>,
) -> Result<Option<Vec<u8>>, AllocError> {
    let value = u64::from(value);
    match away_of(away) {
        Away::More(words) => Ok(Some(digits_of(alloc, value.saturating_add(words))?)),
        Away::Less(words) if words <= value => {
            Ok(Some(digits_of(alloc, value.saturating_sub(words))?))
        }
        Away::Less(words) => {
            push_below(text, place, words.saturating_sub(value))?;
            Ok(None)
        }
        Away::NoNumber => {
            push_no_number(text, place, away)?;
            Ok(None)
        }
        Away::BadNumber => {
            push_bad_number(text, away)?;
            Ok(None)
        }
    }
}

fn push_no_number<'t>(
    text: &mut Vec<u8>,
    place: &'t [u8],
    away: &'t [u8],
) -> Result<(), AllocError> {
    let register = place.split_at(1.min(place.len())).0;
    push_said(
        text,
        &[
            Bytes(b"after "),
            Bytes(register),
            Bytes(b" may come + or - and a number, and not "),
            Bytes(away),
        ],
    )
}

fn push_bad_number(text: &mut Vec<u8>, away: &[u8]) -> Result<(), AllocError> {
    push_said(
        text,
        &[
            Bytes(b"after + or - comes a number of at most 9 digits, and not "),
            Bytes(away.split_at(1.min(away.len())).1),
        ],
    )
}

fn push_below(text: &mut Vec<u8>, place: &[u8], below: u64) -> Result<(), AllocError> {
    push_said(
        text,
        &[
            Bytes(place),
            Bytes(b" is -"),
            Number(below),
            Bytes(b", and no word has such an address"),
        ],
    )
}

// Those of a word address that is written in digits, or of a label.
fn labelled_digits(
    alloc: Global,
    case: &Case,
    machine: &Machine,
    place: &[u8],
    text: &mut Vec<u8>,
) -> Result<Option<Vec<u8>>, AllocError> {
    let Some(digits) = address_digits(alloc, case, machine, place, text)? else {
        return Ok(None);
    };
    if is_address(place) {
        return Ok(Some(digits));
    }
    match number(digits.as_slice()) {
        Some(byte) if byte % 4 == 0 => Ok(Some(digits_of(alloc, byte / 4)?)),
        _ => {
            push_no_word(text, place, digits.as_slice())?;
            Ok(None)
        }
    }
}

fn push_no_word<'t>(
    text: &mut Vec<u8>,
    place: &'t [u8],
    digits: &'t [u8],
) -> Result<(), AllocError> {
    push_said(
        text,
        &[
            Bytes(place),
            Bytes(b" is at byte "),
            Bytes(digits),
            Bytes(b", which is not the first of a word"),
        ],
    )
}

/// Shows words of the store, from an address on, each in hex, as a signed number, and as its four bytes, the lowest first.
pub fn push_words<'t>(
    alloc: Global,
    machine: &Machine,
    address: &'t [u8],
    count: &'t [u8],
    text: &mut Vec<u8>,
) -> Result<(), AllocError> {
    let mut line = Vec::new(alloc);
    push_sentence(
        &mut line,
        &[Bytes(b"MEM "), Bytes(address), Bytes(b" "), Bytes(count)],
    )?;
    match order_of(0, line.as_slice()) {
        Ok(Order::Words { from, count }) => push_span(machine, from, count, text),
        Ok(_) => Ok(()),
        Err(bad) => push_refusal(text, bad.code),
    }
}

fn push_span(
    machine: &Machine,
    from: u32,
    count: u32,
    text: &mut Vec<u8>,
) -> Result<(), AllocError> {
    let store = machine.store();
    let there = store.size().saturating_sub(from).min(count);
    let words = store.words(from, there).unwrap_or(&[]);
    let mut address = u64::from(from);
    for word in words {
        push_word(text, address, *word)?;
        address = address.saturating_add(1);
    }
    Ok(())
}

fn push_word(text: &mut Vec<u8>, address: u64, word: u32) -> Result<(), AllocError> {
    let mut digits = [0u8; 8];
    hex::encode_to_slice(word.to_be_bytes(), &mut digits).unwrap();
    push_sentence(
        text,
        &[
            Number(address),
            Bytes(b" "),
            Bytes(digits.as_slice()),
            Bytes(b"  "),
        ],
    )?;
    push_padded_signed(text, i64::from(signed(word)))?;
    push_sentence(text, &[Bytes(b"  ")])?;
    for byte in word.to_le_bytes() {
        text.push(letter_of(byte))?;
    }
    push_sentence(text, &[Bytes(b"\n")])
}

// A signed number, with blanks before it.
fn push_padded_signed(text: &mut Vec<u8>, value: i64) -> Result<(), AllocError> {
    let mut buffer = Buffer::new();
    let digits = buffer.format(value).as_bytes();
    push_blanks(text, WIDTH.saturating_sub(digits.len()))?;
    push_sentence(text, &[Bytes(digits)])
}

// A byte as a letter, or a dot where it is none.
fn letter_of(byte: u8) -> u8 {
    match byte {
        b' '..=b'~' => byte,
        _ => b'.',
    }
}
