// The words of the hunk.
ghost use Rattle.std.specs.Prelude.{◌≡◌, ◌<◌, ◌≤◌, ◌+◌, ◌^◌, ◌∷◌, ◌++◌, length, IfOk, OnOk};
ghost use Rattle.assembly.specs.AssemblyText.HunkWords.{closing, highest, hunk_words, pair_words, words_of};
ghost use Rattle.assembly.specs.AssemblyText.KeptCode.{kept_code};
ghost use Rattle.assembly.specs.AssemblyText.Places.{hunk_size};

use crate::assembly_text::encode::Encoded;
use std::alloc::{AllocError, Global};

/// The words of the hunk, as many as `size`.
pub fn hunk_words(alloc: Global, code: &Encoded, size: u32) -> Result<Vec<u32>, AllocError>
    requires { hunk_size (4 + length code.now.bytes.items) (length code.now.pairs.items) ≡ size }
    ensures { IfOk result (λ words. words.items ≡ hunk_words (kept_code code.now)) }
{
    let mut words = Vec::new(alloc);
    words.push(size)?;
    push_code(&mut words, &code.bytes)?;
    push_closing(&mut words, &code.pairs)?;
    Ok(words)
}

// Adds the words that bytes are.
fn push_code(words: &mut Vec<u32>, bytes: &[u8]) -> Result<(), AllocError>
    ensures { OnOk result (words.new.items ≡ words.old.items ++ words_of bytes.now) }
{
    let mut rest = bytes;
    while !rest.is_empty() {
        let (word, others) = first_word(rest);
        words.push(word)?;
        rest = others;
    }
    Ok(())
}

// The first word of bytes, and the bytes after it.
fn first_word(bytes: &[u8]) -> (u32, &[u8])
    requires { 0 < length bytes.now }
    ensures value { words_of bytes.now ≡ result.0 ∷ words_of result.1.now }
    ensures shorter { length result.1.now < length bytes.now }
{
    match bytes {
        [a] => (u32::from_le_bytes([*a, 0, 0, 0]), &[]),
        [a, b] => (u32::from_le_bytes([*a, *b, 0, 0]), &[]),
        [a, b, c] => (u32::from_le_bytes([*a, *b, *c, 0]), &[]),
        [a, b, c, d, others @ ..] => (u32::from_le_bytes([*a, *b, *c, *d]), others),
        [] => unreachable!(),
    }
}

// Adds the words after the code.
fn push_closing(words: &mut Vec<u32>, pairs: &[(u32, u32)]) -> Result<(), AllocError>
    ensures { OnOk result (words.new.items ≡ words.old.items ++ closing pairs.now) }
{
    words.push(0)?;
    if !pairs.is_empty() {
        push_pairs(words, pairs)?;
        words.push(highest(pairs))?;
    }
    Ok(())
}

// Adds the words of pairs.
fn push_pairs(words: &mut Vec<u32>, pairs: &[(u32, u32)]) -> Result<(), AllocError>
    ensures { OnOk result (words.new.items ≡ words.old.items ++ pair_words pairs.now) }
{
    for (number, value) in pairs {
        words.push(*number)?;
        words.push(*value)?;
    }
    Ok(())
}

// The highest number of a global.
fn highest(pairs: &[(u32, u32)]) -> u32
    ensures { result ≡ highest pairs.now }
{
    pairs.iter().fold(0, |most, pair| most.max(pair.0))
}
