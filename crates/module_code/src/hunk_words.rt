// The words of a hunk, as lines of comment.
ghost use Rattle.std.specs.Prelude.{◌≡◌, ◌++◌, ◌<◌, length, codes, decimal, OnOk};
ghost use Rattle.byte_streams.specs.Pieces.{hex_digits_of};
ghost use Rattle.tool_texts.specs.Sentences.{text_of};
ghost use Rattle.module_code.specs.HunkWords.{entry_text, hunk_lines, line_begin, line_end, offsets_from, words_from};

use hex;
use module_text::Hunk;
use std::alloc::AllocError;
use tool_texts::Said::{self, Bytes, Number};
use tool_texts::push_sentence;

/// Adds the words of a hunk, in hex, and the offsets of those that are relocated, eight a line.
pub fn push_hunk(text: &mut Vec<u8>, hunk: &Hunk) -> Result<(), AllocError>
    ensures { OnOk result (text.new.items ≡ text.old.items ++ hunk_lines hunk.now) }
{
    push_words(text, hunk.words.as_slice())?;
    push_offsets(text, hunk.relocations.as_slice())
}

fn push_words(text: &mut Vec<u8>, words: &[u32]) -> Result<(), AllocError>
    ensures { OnOk result (text.new.items
        ≡ text.old.items ++ words_from 0 (length words.now) words.now) }
{
    for (i, word) in words.iter().enumerate() {
        push_word(text, i, words.len(), *word)?;
    }
    Ok(())
}

fn push_word(text: &mut Vec<u8>, i: usize, n: usize, word: u32) -> Result<(), AllocError>
    requires { i < n }
    ensures { OnOk result (text.new.items
        ≡ text.old.items ++ entry_text (codes "; WORDS") i n (hex_digits_of word)) }
{
    push_entry(text, b"; WORDS", i, n, Bytes(&hex_word(word)))
}

// The eight hex digits of a word, in lower case.
fn hex_word(word: u32) -> [u8; 8]
    ensures { result ≡ hex_digits_of word }
{
    let mut digits = [0u8; 8];
    hex::encode_to_slice(word.to_be_bytes(), &mut digits).unwrap();
    digits
}

fn push_offsets(text: &mut Vec<u8>, offsets: &[u32]) -> Result<(), AllocError>
    ensures { OnOk result (text.new.items
        ≡ text.old.items ++ offsets_from 0 (length offsets.now) offsets.now) }
{
    for (i, offset) in offsets.iter().enumerate() {
        push_offset(text, i, offsets.len(), *offset)?;
    }
    Ok(())
}

fn push_offset(text: &mut Vec<u8>, i: usize, n: usize, offset: u32) -> Result<(), AllocError>
    requires { i < n }
    ensures { OnOk result (text.new.items
        ≡ text.old.items ++ entry_text (codes "; RELOCATED") i n (decimal offset)) }
{
    push_entry(text, b"; RELOCATED", i, n, Number(u64::from(offset)))
}

// Adds entry i of n, in its place of a line that begins with these bytes.
fn push_entry(
    text: &mut Vec<u8>,
    mark: &[u8],
    i: usize,
    n: usize,
    said: Said,
) -> Result<(), AllocError>
    requires { i < n }
    ensures { OnOk result (text.new.items
        ≡ text.old.items ++ entry_text mark.now i n (text_of said.entry)) }
{
    push_sentence(text, &[Bytes(line_begin(mark, i)), Bytes(b" ")])?;
    push_sentence(text, &[said, Bytes(line_end(i, n))])
}

// What is before entry i.
fn line_begin(mark: &[u8], i: usize) -> &[u8]
    ensures { result.now ≡ line_begin mark.now i }
{
    if i % 8 == 0 { mark } else { b"" }
}

// What is after entry i of n.
fn line_end(i: usize, n: usize) -> &'static [u8]
    requires { i < n }
    ensures { result.now ≡ line_end i n }
{
    if i % 8 == 7 || i + 1 == n { b"\n" } else { b"" }
}
