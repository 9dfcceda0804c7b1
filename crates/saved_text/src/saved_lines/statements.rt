// What a line of a saved machine's files, streams, pipes, keys or words states, or its last line.
ghost use Rattle.std.specs.Prelude.{◌≡◌, option_map, IfSome};
ghost use Rattle.saved_text.specs.SavedLines.Seen.{HasHex, seen};
ghost use Rattle.saved_text.specs.SavedLines.Statements.{byte_line_of, file_of, go_of, key_of, pipe_of, statement_of, stream_of, word_line_of};

use crate::saved_lines::fields::{field_before_blank, is_field};
use crate::saved_lines::hex_text::{byte_of, hex_field, is_hex, word_of};
use module_text::{after_word, number};
use session_text::number_field;

/// What a line states, with its numbers and names as they are there.
#[derive(Clone, Copy)]
pub enum Statement<'a> {
    /// A file of this name.
    File(&'a [u8]),
    /// The digits of 1 to 32 bytes of a file.
    Bytes(&'a [u8]),
    /// A stream that is open.
    Stream {
        /// Its number.
        k: u64,
        /// 1 where it writes, 0 where it reads.
        mode: u64,
        /// Its position in the file, in bytes.
        position: u64,
        /// The name of its file.
        name: &'a [u8],
    },
    /// A pipe.
    Pipe {
        /// Its number.
        k: u64,
        /// 1 where its reading end is open.
        reading: u64,
        /// 1 where its writing end is open.
        writing: u64,
        /// 1 where that end was ever opened.
        written: u64,
        /// Its name.
        name: &'a [u8],
        /// The digits of the bytes that it holds.
        digits: &'a [u8],
    },
    /// A key that is still to come.
    Key {
        /// The step at which it is due.
        step: u64,
        /// The key.
        byte: u8,
    },
    /// A word of the store that is not 0.
    Word {
        /// Its address, in words.
        address: u64,
        /// The word.
        word: u32,
    },
    /// The steps that the machine is to take.
    Go(u64),
}

/// The statement of a line; `None` exactly where it is none.
#[tactic(auto, unfolding(crate::specs::SavedLines::Statements::statement_of))]
pub fn statement_of(line: &[u8]) -> Option<Statement<'_>>
    ensures value { option_map seen result ≡ statement_of line.now }
    ensures hex { IfSome result HasHex }
{
    if let Some(name) = after_word(b"FILE ", line) {
        return file_of(name);
    }
    if let Some(digits) = after_word(b":", line) {
        return byte_line_of(digits);
    }
    if let Some(rest) = after_word(b"STREAM ", line) {
        return stream_of(rest);
    }
    if let Some(rest) = after_word(b"PIPE ", line) {
        return pipe_of(rest);
    }
    if let Some(rest) = after_word(b"KEY ", line) {
        return key_of(rest);
    }
    if let Some(rest) = after_word(b"W ", line) {
        return word_line_of(rest);
    }
    go_of(after_word(b"GO ", line)?)
}

fn file_of(name: &[u8]) -> Option<Statement<'_>>
    ensures value { option_map seen result ≡ file_of name.now }
    ensures hex { IfSome result HasHex }
{
    is_field(name).then_some(Statement::File(name))
}

// 1 to 32 bytes.
fn byte_line_of(digits: &[u8]) -> Option<Statement<'_>>
    ensures value { option_map seen result ≡ byte_line_of digits.now }
    ensures hex { IfSome result HasHex }
{
    if digits.len() < 2 || digits.len() > 64 {
        return None;
    }
    is_hex(digits).then_some(Statement::Bytes(digits))
}

fn stream_of(text: &[u8]) -> Option<Statement<'_>>
    ensures value { option_map seen result ≡ stream_of text.now }
    ensures hex { IfSome result HasHex }
{
    let (k, rest) = number_field(text)?;
    let (mode, rest) = number_field(rest)?;
    let (position, name) = number_field(rest)?;
    is_field(name).then_some(Statement::Stream {
        k,
        mode,
        position,
        name,
    })
}

fn pipe_of(text: &[u8]) -> Option<Statement<'_>>
    ensures value { option_map seen result ≡ pipe_of text.now }
    ensures hex { IfSome result HasHex }
{
    let (k, rest) = number_field(text)?;
    let (reading, rest) = number_field(rest)?;
    let (writing, rest) = number_field(rest)?;
    let (written, rest) = number_field(rest)?;
    let (name, rest) = field_before_blank(rest)?;
    let digits = hex_field(rest)?;
    Some(Statement::Pipe {
        k,
        reading,
        writing,
        written,
        name,
        digits,
    })
}

fn key_of(text: &[u8]) -> Option<Statement<'_>>
    ensures value { option_map seen result ≡ key_of text.now }
    ensures hex { IfSome result HasHex }
{
    let (step, digits) = number_field(text)?;
    let byte = byte_of(digits)?;
    Some(Statement::Key { step, byte })
}

fn word_line_of(text: &[u8]) -> Option<Statement<'_>>
    ensures value { option_map seen result ≡ word_line_of text.now }
    ensures hex { IfSome result HasHex }
{
    let (address, digits) = number_field(text)?;
    let word = word_of(digits)?;
    Some(Statement::Word { address, word })
}

fn go_of(digits: &[u8]) -> Option<Statement<'_>>
    ensures value { option_map seen result ≡ go_of digits.now }
    ensures hex { IfSome result HasHex }
{
    Some(Statement::Go(number(digits)?))
}
