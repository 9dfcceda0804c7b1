// A line that may not be where it is.

use crate::line_words::{LineWord, word_among, word_named};
use crate::lines::first_word;
use crate::nearness::{in_capitals, near_word};
use crate::reading::{NO_FORM, Reading};
use std::alloc::{AllocError, Global};
use tool_texts::Said::Bytes;
use tool_texts::push_sentence;

/// The most bytes of a word that are shown.
const WIDTH: usize = 24;

/// What may be at a place.
#[derive(Clone, Copy)]
pub struct Allowed {
    /// The first words of the lines that may be there.
    pub words: &'static [LineWord],
    /// Whether a line of a file may be there.
    pub is_in_file: bool,
}

/// Says that line n may not be where only these may: for this reason, where there is one. Answers the word that is meant, if one is.
pub fn other_line(
    reading: &mut Reading,
    n: usize,
    line: &[u8],
    allowed: Allowed,
    why: Option<Vec<u8>>,
) -> Result<Option<LineWord>, AllocError> {
    if line.is_empty() {
        let expected = expected_words(reading.alloc, allowed.words)?;
        reading.wrong(
            n,
            1,
            NO_FORM,
            &[Bytes(b"no line is empty; "), Bytes(expected.as_slice())],
        )?;
        return Ok(None);
    }
    if line.starts_with(b" ") {
        reading.wrong(
            n,
            1,
            NO_FORM,
            &[Bytes(b"a line begins with its first word, but found a blank")],
        )?;
        return Ok(word_named(first_word(without_blanks(line))));
    }
    if let Some(why) = why {
        reading.wrong(n, 1, NO_FORM, &[Bytes(why.as_slice())])?;
        return Ok(word_named(first_word(line)));
    }
    unknown_line(reading, n, first_word(line), allowed)
}

fn without_blanks(line: &[u8]) -> &[u8] {
    match line.iter().position(|c| *c != b' ') {
        Some(begin) => &line[begin..],
        None => &[],
    }
}

// The line begins with a word that may not be there.
fn unknown_line(
    reading: &mut Reading,
    n: usize,
    word: &[u8],
    allowed: Allowed,
) -> Result<Option<LineWord>, AllocError> {
    let near = near_word(reading.alloc, word, allowed.words)?;
    if near.is_none() {
        if let Some(begun) = begun_word(word, allowed.words) {
            reading.wrong(
                n,
                begun.name().len().saturating_add(1),
                NO_FORM,
                &[
                    Bytes(b"after "),
                    Bytes(begun.name()),
                    Bytes(b" comes a blank"),
                ],
            )?;
            return Ok(Some(begun));
        }
    }
    let expected = expected_words(reading.alloc, allowed.words)?;
    let hint = hint_words(reading.alloc, word, near, allowed.is_in_file)?;
    let mut shown = Vec::new(reading.alloc);
    push_shown(&mut shown, word)?;
    reading.wrong(
        n,
        1,
        NO_FORM,
        &[
            Bytes(expected.as_slice()),
            Bytes(b", and not "),
            Bytes(shown.as_slice()),
            Bytes(hint.as_slice()),
        ],
    )?;
    match near {
        Some(_) => Ok(near),
        None => Ok(word_named(word)),
    }
}

// The word whose name all the capitals at the beginning of another word are.
fn begun_word(word: &[u8], allowed: &[LineWord]) -> Option<LineWord> {
    let end = word.iter().position(|c| !c.is_ascii_uppercase())?;
    word_among(allowed, &word[..end])
}

// What is said of a word that is near.
fn hint_words(
    alloc: Global,
    word: &[u8],
    near: Option<LineWord>,
    is_in_file: bool,
) -> Result<Vec<u8>, AllocError> {
    let mut words = Vec::new(alloc);
    let Some(near) = near else {
        if is_in_file {
            push_sentence(
                &mut words,
                &[Bytes(b"; a line of the text of a file begins with a colon")],
            )?;
        }
        return Ok(words);
    };
    let capitals = in_capitals(alloc, word)?;
    if capitals.as_slice() == near.name() {
        push_sentence(
            &mut words,
            &[Bytes(b"; words have capitals: "), Bytes(near.name())],
        )?;
    } else {
        push_sentence(
            &mut words,
            &[Bytes(b"; is "), Bytes(near.name()), Bytes(b" meant?")],
        )?;
    }
    Ok(words)
}

// What is expected, where these may be.
fn expected_words(alloc: Global, allowed: &[LineWord]) -> Result<Vec<u8>, AllocError> {
    let mut words = Vec::new(alloc);
    if let [only] = allowed {
        push_sentence(&mut words, &[Bytes(only.shape()), Bytes(b" is due here")])?;
        return Ok(words);
    }
    for (i, word) in allowed.iter().enumerate() {
        let before: &[u8] = if i == 0 {
            b"expected "
        } else if i.saturating_add(1) == allowed.len() {
            b" or "
        } else {
            b", "
        };
        push_sentence(&mut words, &[Bytes(before), Bytes(word.shape())])?;
    }
    Ok(words)
}

/// Adds a word, of which only the beginning is shown where it is long.
pub fn push_shown(words: &mut Vec<u8>, word: &[u8]) -> Result<(), AllocError> {
    if word.len() <= WIDTH {
        return push_sentence(words, &[Bytes(word)]);
    }
    push_sentence(words, &[Bytes(word.split_at(WIDTH).0), Bytes(b"..")])
}
