// Strings.
ghost use Rattle.std.specs.Prelude.{◌≡◌, ◌++◌, OnOk};
ghost use Rattle.std.specs.List.{flat_map};
ghost use Rattle.friendly_assembly.specs.Quotes.{codes_in};
ghost use Rattle.friendly_assembly.specs.Strings.{code_line, head_lines, length_flaw, lines_of_string, operands_flaw, string_flaw, string_length_flaw, string_lines, string_lines_by, text_flaw};

use crate::flaws::{Flaw, Wrong};
use crate::labels::split_labels;
use crate::parts::{Part, parts_of};
use crate::quotes::{code_count, quote_flaw, quoted, split_code};
use crate::readings::code_length;
use std::alloc::{AllocError, Global};
use tool_texts::Said::{Bytes, Number};
use tool_texts::push_sentence;

/// The most characters of a string.
const MOST_CHARACTERS: usize = 255;

/// What is wrong in a string.
pub fn string_flaw<'a>(
    labels: &[Part<'a>],
    word: &Part<'a>,
    operands: &[Part<'a>],
) -> Option<Flaw<'a>>
    ensures { result ≡ string_flaw labels.now word.now operands.now }
{
    if labels.is_empty() {
        return Some(Flaw::new(word.column, Wrong::UnlabelledString));
    }
    operands_flaw(word, operands)
}

// `DS` with its operands.
fn operands_flaw<'a>(word: &Part<'a>, operands: &[Part<'a>]) -> Option<Flaw<'a>>
    ensures { result ≡ operands_flaw word.now operands.now }
{
    match operands {
        [part] => text_flaw(word, part),
        _ => Some(Flaw::new(word.column, Wrong::StringForm)),
    }
}

// `DS` with one operand.
fn text_flaw<'a>(word: &Part<'a>, part: &Part<'a>) -> Option<Flaw<'a>>
    ensures { result ≡ text_flaw word.now part.now }
{
    match part.text.bytes().split_first() {
        Some((b'"', others)) => string_length_flaw(part, quote_flaw(b'"', part.column, others)),
        _ => Some(Flaw::new(word.column, Wrong::StringForm)),
    }
}

// A string, where nothing is wrong in its quotes.
fn string_length_flaw<'a>(part: &Part<'a>, wrong: Option<Flaw<'a>>) -> Option<Flaw<'a>>
    ensures { result ≡ string_length_flaw part.now wrong.entry }
{
    match wrong {
        Some(wrong) => Some(wrong),
        None => length_flaw(part.column, code_count(quoted(part.text.bytes()))),
    }
}

// A string of so many characters.
fn length_flaw<'a>(column: usize, count: usize) -> Option<Flaw<'a>>
    ensures { result ≡ length_flaw column count }
{
    if count > MOST_CHARACTERS {
        return Some(Flaw::new(column, Wrong::LongString(count)));
    }
    None
}

/// Adds the lines of the string of a line, where this is one.
pub fn push_string(alloc: Global, text: &mut Vec<u8>, line: &[u8]) -> Result<(), AllocError>
    ensures { OnOk result (text.new.items ≡ text.old.items ++ string_lines line.now) }
{
    let (code, _) = line.split_at(code_length(line));
    let parts = parts_of(alloc, code)?;
    let (labels, said) = split_labels(parts.as_slice());
    push_said(text, labels, said)
}

// The same, of a line with these labels, which says this after them.
fn push_said(text: &mut Vec<u8>, labels: &[Part], said: &[Part]) -> Result<(), AllocError>
    ensures { OnOk result (text.new.items
        ≡ text.old.items ++ string_lines_by labels.now said.now) }
{
    match (labels, said) {
        ([label, ..], [word, part]) if word.text.bytes() == b"DS".as_slice() => {
            push_lines(text, label.text.bytes(), quoted(part.text.bytes()))
        }
        _ => Ok(()),
    }
}

// The lines of a string.
fn push_lines(text: &mut Vec<u8>, label: &[u8], quoted: &[u8]) -> Result<(), AllocError>
    ensures { OnOk result (text.new.items
        ≡ text.old.items ++ lines_of_string label.now (codes_in quoted.now)) }
{
    push_head(text, label, code_count(quoted))?;
    push_codes(text, quoted)
}

// The place of a string, and its label with the number of its characters.
#[tactic(auto, unfolding(crate::specs::Strings::head_lines))]
fn push_head(text: &mut Vec<u8>, label: &[u8], count: usize) -> Result<(), AllocError>
    ensures { OnOk result (text.new.items ≡ text.old.items ++ head_lines label.now count) }
{
    push_sentence(
        text,
        &[
            Bytes(b"        ALIGN 4\n"),
            Bytes(label),
            Bytes(b" DB "),
            Number(count as u64),
            Bytes(b"\n"),
        ],
    )
}

// A line for each character.
fn push_codes(text: &mut Vec<u8>, quoted: &[u8]) -> Result<(), AllocError>
    ensures { OnOk result (text.new.items
        ≡ text.old.items ++ flat_map code_line (codes_in quoted.now)) }
{
    let mut rest = quoted;
    while let Some((code, others)) = split_code(rest) {
        push_code(text, code)?;
        rest = others;
    }
    Ok(())
}

// A line for a character.
#[tactic(auto, unfolding(crate::specs::Strings::code_line))]
fn push_code(text: &mut Vec<u8>, code: u8) -> Result<(), AllocError>
    ensures { OnOk result (text.new.items ≡ text.old.items ++ code_line code) }
{
    push_sentence(
        text,
        &[Bytes(b"        DB "), Number(code as u64), Bytes(b"\n")],
    )
}
