// The plain lines that lines become.
ghost use Rattle.std.specs.Prelude.{◌≡◌, ◌++◌, ◌<◌, ◌≤◌, ◌==◌, ◌||◌, IfOk, OnOk, codes, if◌then◌else◌, length, map, not};
ghost use Rattle.std.specs.List.{list_all, list_any, position, position_or_len};
ghost use Rattle.std.specs.Str.{bytes_eq};
ghost use Rattle.friendly_assembly.specs.Readings.{is_blank};
ghost use Rattle.friendly_assembly.specs.KeptNames.{names_by};
ghost use Rattle.friendly_assembly.specs.Operands.{operand_text};
ghost use Rattle.friendly_assembly.specs.PlainLine.{comment_line, first_column, is_plain, is_told, operands_stay, padded, plain_code, plain_line, plain_line_by, spaced, stays, with_comment, with_operands, with_part, with_said};

use crate::labels::split_labels;
use crate::names::Names;
use crate::operands::push_operand;
use crate::parts::{Part, parts_of};
use crate::readings::{code_length, is_blank};
use std::alloc::{AllocError, Global};
use tool_texts::push_blanks;

/// The plain line that a line becomes.
#[tactic(auto, unfolding(crate::specs::PlainLine::plain_line))]
pub fn plain_line<'a>(
    alloc: Global,
    names: &Names<'_, 'a>,
    line: &'a [u8],
) -> Result<Vec<u8>, AllocError>
    ensures { let known = names_by names.now.constants.now names.now.firsts.now in
        IfOk result (λ v. v.items ≡ plain_line known line.now) }
{
    let count = code_length(line);
    let (code, comment) = line.split_at(count);
    let parts = parts_of(alloc, code)?;
    let (labels, said) = split_labels(parts.as_slice());
    if is_told(said) {
        return comment_line(alloc, line);
    }
    if is_plain(alloc, names, code, labels, said)? {
        return Vec::from_slice(alloc, line);
    }
    let mut text = plain_code(alloc, names, labels, said)?;
    push_comment(&mut text, count, comment)?;
    Ok(text)
}

// Whether what is said is only for this tool.
fn is_told(said: &[Part]) -> bool
    ensures { result ≡ is_told said.now }
{
    match said.split_first() {
        Some((word, _)) => is_own_word(word.text.bytes()),
        None => false,
    }
}

fn is_own_word(word: &[u8]) -> bool
    ensures { result ≡ (bytes_eq word.now (codes "SET") || bytes_eq word.now (codes "DS")) }
{
    word == b"SET".as_slice() || word == b"DS".as_slice()
}

// A line as a comment.
fn comment_line(alloc: Global, line: &[u8]) -> Result<Vec<u8>, AllocError>
    ensures { IfOk result (λ v. v.items ≡ comment_line line.now) }
{
    let mut text = Vec::from_slice(alloc, b"; ")?;
    let (_, rest) = line.split_at(first_no_blank(line));
    push_without_tabs(&mut text, rest)?;
    Ok(text)
}

// Where the first byte is that is no blank and no tab.
#[tactic(auto, using(crate::proofs::PlaceLemmas::first_or_end))]
fn first_no_blank(line: &[u8]) -> usize
    ensures value { result ≡ position_or_len (λ c. not (is_blank c)) line.now }
    ensures within { result ≤ length line.now }
{
    no_blank(line).unwrap_or(line.len())
}

fn no_blank(line: &[u8]) -> Option<usize>
    ensures { result ≡ position (λ c. not (is_blank c)) line.now }
{
    line.iter().position(|c| !is_blank(*c))
}

// Adds bytes, with a blank for each tab.
fn push_without_tabs(text: &mut Vec<u8>, bytes: &[u8]) -> Result<(), AllocError>
    ensures { OnOk result (text.new.items
        ≡ text.old.items ++ map (λ c. (if c == 9 then 32 else c)) bytes.now) }
{
    for byte in bytes {
        text.push(without_tab(*byte))?;
    }
    Ok(())
}

fn without_tab(byte: u8) -> u8
    ensures { result ≡ (if byte == 9 then 32 else byte) }
{
    if byte == b'\t' { b' ' } else { byte }
}

// Whether a line is plain.
fn is_plain<'a>(
    alloc: Global,
    names: &Names<'_, 'a>,
    code: &[u8],
    labels: &[Part<'a>],
    said: &[Part<'a>],
) -> Result<bool, AllocError>
    ensures { let known = names_by names.now.constants.now names.now.firsts.now in
        IfOk result (λ b. b ≡ is_plain known code.now labels.now said.now) }
{
    if has_tab(code) || labels.len() > 1 {
        return Ok(false);
    }
    match said.split_first() {
        Some((_, operands)) => operands_stay(alloc, names, operands),
        None => Ok(true),
    }
}

fn has_tab(code: &[u8]) -> bool
    ensures { result ≡ list_any (λ c. c == 9) code.now }
{
    code.iter().any(|c| *c == b'\t')
}

// Whether operands stay as they are.
fn operands_stay<'a>(
    alloc: Global,
    names: &Names<'_, 'a>,
    operands: &[Part<'a>],
) -> Result<bool, AllocError>
    ensures { let known = names_by names.now.constants.now names.now.firsts.now in
        IfOk result (λ b. b ≡ list_all (stays known) operands.now) }
{
    for part in operands {
        if !stays(alloc, names, part)? {
            return Ok(false);
        }
    }
    Ok(true)
}

// Whether an operand stays as it is.
fn stays<'a>(alloc: Global, names: &Names<'_, 'a>, part: &Part<'a>) -> Result<bool, AllocError>
    ensures { let known = names_by names.now.constants.now names.now.firsts.now in
        IfOk result (λ b. b ≡ stays known part.now) }
{
    let mut text = Vec::new(alloc);
    push_operand(&mut text, names, part)?;
    Ok(text.as_slice() == part.text.bytes())
}

// The code of a line: its first label, and what it says.
fn plain_code<'a>(
    alloc: Global,
    names: &Names<'_, 'a>,
    labels: &[Part<'a>],
    said: &[Part<'a>],
) -> Result<Vec<u8>, AllocError>
    ensures { let known = names_by names.now.constants.now names.now.firsts.now in
        IfOk result (λ v. v.items ≡ plain_code known labels.now said.now) }
{
    let mut text = Vec::new(alloc);
    match labels.split_first() {
        None => push_said(&mut text, names, first_column(said), said)?,
        Some((label, others)) => {
            push_part(&mut text, label.column, label.text.bytes())?;
            push_said(&mut text, names, second_column(others, said), said)?;
        }
    }
    Ok(text)
}

// The column of the first of some parts.
fn first_column(parts: &[Part]) -> usize
    ensures { result ≡ first_column parts.now }
{
    match parts.first() {
        Some(part) => part.column,
        None => 1,
    }
}

// The column of the first of some parts, or else of others.
fn second_column(parts: &[Part], others: &[Part]) -> usize
    ensures { result ≡ first_column (parts.now ++ others.now) }
{
    if parts.is_empty() {
        return first_column(others);
    }
    first_column(parts)
}

// Adds what is said after the labels: its first word from a column on, and its operands.
fn push_said<'a>(
    text: &mut Vec<u8>,
    names: &Names<'_, 'a>,
    column: usize,
    said: &[Part<'a>],
) -> Result<(), AllocError>
    ensures { let known = names_by names.now.constants.now names.now.firsts.now in
        OnOk result (text.new.items ≡ with_said known text.old.items column said.now) }
{
    let Some((word, operands)) = said.split_first() else {
        return Ok(());
    };
    push_part(text, column, word.text.bytes())?;
    push_operands(text, names, operands)
}

// Adds one part, from a column on where there is room.
fn push_part(text: &mut Vec<u8>, column: usize, part: &[u8]) -> Result<(), AllocError>
    ensures { OnOk result (text.new.items ≡ with_part text.old.items column part.now) }
{
    pad(text, column)?;
    space(text)?;
    text.extend_from_slice(part)
}

// Adds the operands, each after a blank.
fn push_operands<'a>(
    text: &mut Vec<u8>,
    names: &Names<'_, 'a>,
    operands: &[Part<'a>],
) -> Result<(), AllocError>
    ensures { let known = names_by names.now.constants.now names.now.firsts.now in
        OnOk result (text.new.items ≡ with_operands known text.old.items operands.now) }
{
    for part in operands {
        space(text)?;
        push_operand(text, names, part)?;
    }
    Ok(())
}

// Adds blanks up to a column.
fn pad(text: &mut Vec<u8>, column: usize) -> Result<(), AllocError>
    ensures { OnOk result (text.new.items ≡ padded text.old.items column) }
{
    let count = column.saturating_sub(1).saturating_sub(text.len());
    push_blanks(text, count)
}

// Adds a blank, unless the text is empty or ends with one.
fn space(text: &mut Vec<u8>) -> Result<(), AllocError>
    ensures { OnOk result (text.new.items ≡ spaced text.old.items) }
{
    if text.is_empty() || text.as_slice().ends_with(b" ") {
        return Ok(());
    }
    text.extend_from_slice(b" ")
}

// Adds the comment from the column on where it was, or the end of the line.
fn push_comment(text: &mut Vec<u8>, count: usize, comment: &[u8]) -> Result<(), AllocError>
    requires { count < usize.MAX }
    ensures { OnOk result (text.new.items ≡ with_comment text.old.items count comment.now) }
{
    if comment.starts_with(b";") {
        pad(text, count + 1)?;
    }
    text.extend_from_slice(comment)
}
