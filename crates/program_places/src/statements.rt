// What a line of a map states.
ghost use Rattle.std.specs.Prelude.{◌≡◌, ◌==◌, option_map, IfErr};
ghost use Rattle.std.specs.List.{position};
ghost use Rattle.module_text.specs.TextReader.Answers.{Gives};
ghost use Rattle.module_text.specs.Words.{word_of};
ghost use Rattle.session_text.specs.Statements.{fields, split_at_blank};
ghost use Rattle.program_places.specs.Refusals.{IsBadAt};
ghost use Rattle.program_places.specs.Statements.{at_of, hunk_of, hunk_word, label_of, line_of, mapped_line, program_of, statement_of, word_of_byte, words_of};

use crate::maps::{MappedLine, PlacedHunk};
use module_text::tokens::{Span, word_in};
use module_text::{SliceText, TextEnd, after_word, number};
use session_text::number_field;
use std::alloc::Global;
use tool_bundles::Listed;
use tool_texts::Lent;

/// The code of a line that has none of the four forms, or whose name is not that of the program before it.
pub const NO_LINE: u32 = 1;

/// The code of a line in which a number is out of its range.
pub const BAD_NUMBER: u32 = 2;

/// The most hex digits of a word.
const MOST_DIGITS: usize = 8;

/// What a line of a map states.
#[derive(Drop)]
pub enum Statement<'a> {
    /// A program comes from a file.
    Program {
        name: Lent<'a>,
        file: Lent<'a>,
    },
    /// The hunk of a program has these words.
    Hunk {
        name: Lent<'a>,
        words: Listed<Option<u32>>,
    },
    /// A line of the file of a program.
    Line {
        name: Lent<'a>,
        line: MappedLine<'a>,
    },
    /// Where a hunk is on a bare machine.
    At {
        placed: PlacedHunk<'a>,
    },
}

/// What line n states: code 1 where it has none of the four forms, and 2 where a number is out of its range.
#[tactic(auto, unfolding(crate::specs::Statements::statement_of))]
pub fn statement_of<'a>(alloc: Global, n: u32, line: &'a [u8]) -> Result<Statement<'a>, TextEnd>
    ensures value { Gives (λ s. s) result (statement_of n line.now) }
    ensures refused { IfErr result (IsBadAt n) }
{
    if let Some(fields) = after_word(b"program ", line) {
        return program_of(n, fields);
    }
    if let Some(fields) = after_word(b"hunk ", line) {
        return hunk_of(alloc, n, fields);
    }
    if let Some(fields) = after_word(b"line ", line) {
        return line_of(n, fields);
    }
    if let Some(fields) = after_word(b"at ", line) {
        return at_of(n, fields);
    }
    Err(bad_line(n))
}

/// The refusal of a line that has no such form, or may not be here.
pub fn bad_line(n: u32) -> TextEnd
    ensures value { result ≡ TextEnd.Bad n 1 }
    ensures refused { IsBadAt n result }
{
    TextEnd::Bad {
        line: n,
        code: NO_LINE,
    }
}

// The refusal of a line in which a number is out of its range.
fn bad_number(n: u32) -> TextEnd
    ensures value { result ≡ TextEnd.Bad n 2 }
    ensures refused { IsBadAt n result }
{
    TextEnd::Bad {
        line: n,
        code: BAD_NUMBER,
    }
}

// A name, and the path of a file.
fn program_of<'a>(n: u32, fields: &'a [u8]) -> Result<Statement<'a>, TextEnd>
    ensures value { Gives (λ s. s) result (program_of n fields.now) }
    ensures refused { IfErr result (IsBadAt n) }
{
    let (name, file) = split_field(fields).ok_or(bad_line(n))?;
    Ok(Statement::Program {
        name: Lent::new(name),
        file: Lent::new(file),
    })
}

// A name, and words in hex.
fn hunk_of<'a>(alloc: Global, n: u32, fields: &'a [u8]) -> Result<Statement<'a>, TextEnd>
    ensures value { Gives (λ s. s) result (hunk_of n fields.now) }
    ensures refused { IfErr result (IsBadAt n) }
{
    let (name, words) = split_field(fields).ok_or(bad_line(n))?;
    Ok(Statement::Hunk {
        name: Lent::new(name),
        words: hunk_words(alloc, n, words)?,
    })
}

// Words in hex, with a blank between two.
fn hunk_words(alloc: Global, n: u32, text: &[u8]) -> Result<Listed<Option<u32>>, TextEnd>
    ensures value { Gives (λ words. words) result (words_of n (fields text.now)) }
    ensures refused { IfErr result (IsBadAt n) }
{
    let mut words = Listed::new(alloc);
    let mut rest = text;
    while let Some((field, others)) = split_field(rest) {
        words.push(hunk_word(field).ok_or(bad_line(n))?)?;
        rest = others;
    }
    words.push(hunk_word(rest).ok_or(bad_line(n))?)?;
    Ok(words)
}

// The word that a field is; `-` is one that is relocated.
fn hunk_word(field: &[u8]) -> Option<Option<u32>>
    ensures { result ≡ hunk_word field.now }
{
    if field == b"-".as_slice() {
        return Some(None);
    }
    Some(Some(hex_word(field)?))
}

// The word that 1 to 8 hex digits are.
fn hex_word(digits: &[u8]) -> Option<u32>
    ensures { result ≡ word_of digits.now }
{
    if digits.is_empty() || digits.len() > MOST_DIGITS {
        return None;
    }
    let end = digits.len() as u32;
    word_in(&SliceText::new(digits), Span { start: 0, end })
}

// A name, an offset, the number of a line, and a label or `-`.
fn line_of<'a>(n: u32, fields: &'a [u8]) -> Result<Statement<'a>, TextEnd>
    ensures value { Gives (λ s. s) result (line_of n fields.now) }
    ensures refused { IfErr result (IsBadAt n) }
{
    let (name, fields) = split_field(fields).ok_or(bad_line(n))?;
    Ok(Statement::Line {
        name: Lent::new(name),
        line: mapped_line(n, fields)?,
    })
}

fn mapped_line<'a>(n: u32, fields: &'a [u8]) -> Result<MappedLine<'a>, TextEnd>
    ensures value { Gives (λ line. line) result (mapped_line n fields.now) }
    ensures refused { IfErr result (IsBadAt n) }
{
    let (offset, fields) = number_field(fields).ok_or(bad_line(n))?;
    let (number, label) = number_field(fields).ok_or(bad_line(n))?;
    let offset = u32::try_from(offset).ok().ok_or(bad_number(n))?;
    Ok(MappedLine {
        offset,
        number,
        label: label_of(label),
    })
}

fn label_of(field: &[u8]) -> Option<Lent<'_>>
    ensures { result ≡ label_of field.now }
{
    if field == b"-".as_slice() {
        return None;
    }
    Some(Lent::new(field))
}

// A name, and the byte address of a hunk.
fn at_of<'a>(n: u32, fields: &'a [u8]) -> Result<Statement<'a>, TextEnd>
    ensures value { Gives (λ s. s) result (at_of n fields.now) }
    ensures refused { IfErr result (IsBadAt n) }
{
    let (name, digits) = split_field(fields).ok_or(bad_line(n))?;
    let byte = number(digits).ok_or(bad_line(n))?;
    let word = word_of_byte(byte).ok_or(bad_number(n))?;
    Ok(Statement::At {
        placed: PlacedHunk {
            name: Lent::new(name),
            word,
        },
    })
}

// The address of the word whose first byte is at this byte address.
fn word_of_byte(byte: u64) -> Option<u32>
    ensures { result ≡ word_of_byte byte }
{
    if byte % 4 != 0 {
        return None;
    }
    u32::try_from(byte / 4).ok()
}

// What is before and after the first blank; `None` exactly where there is none.
fn split_field(text: &[u8]) -> Option<(&[u8], &[u8])>
    ensures { option_map (λ x. (x.0.now, x.1.now)) result ≡ split_at_blank text.now }
{
    match first_blank(text) {
        Some(end) => Some((&text[..end], &text[end + 1..])),
        None => None,
    }
}

fn first_blank(text: &[u8]) -> Option<usize>
    ensures { result ≡ position (λ c. c == 32) text.now }
{
    text.iter().position(|c| *c == b' ')
}
