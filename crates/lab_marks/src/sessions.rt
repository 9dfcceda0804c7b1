// The words of a session, as the line of a mark has them.
ghost use Rattle.std.specs.Prelude.{◌≡◌};
ghost use Rattle.lab_marks.specs.declared.sessions.WordEnd.TheVariants.{WantMemory};

use crate::cuts::cut;
use crate::ends::Hindered;
use crate::tokens::without_blanks;
use crate::wrongs::Wrong;
use std::alloc::{AllocError, Global};
use tool_texts::Said::Bytes;
use tool_texts::push_sentence;

/// Whether a word is whole.
#[derive(Clone, Copy)]
enum WordEnd {
    /// A quote before it is not closed.
    Open,
    /// Memory could not be had.
    WantMemory,
}

impl From<AllocError> for WordEnd {
    ghost from_gives = { λ _ e. e ≡ WantMemory };

    fn from(_: AllocError) -> WordEnd {
        WordEnd::WantMemory
    }
}

/// The words of a text, a line each. Blanks are between them. A word may be in quotes, and then it may have blanks.
pub fn words_of<'a>(alloc: Global, text: &[u8]) -> Result<Vec<u8>, Hindered<'a>> {
    match split_words(alloc, text) {
        Ok(words) => Ok(words),
        Err(WordEnd::Open) => Err(Hindered::Refused(Wrong::OpenQuote)),
        Err(WordEnd::WantMemory) => Err(Hindered::WantMemory),
    }
}

fn split_words(alloc: Global, text: &[u8]) -> Result<Vec<u8>, WordEnd> {
    let mut words = Vec::new(alloc);
    let mut rest = text;
    for done in 0..text.len() {
        rest = without_blanks(rest);
        if rest.is_empty() {
            break;
        }
        let (word, others) = next_word(rest)?;
        push_sentence(&mut words, &[Bytes(word), Bytes(b"\n")])?;
        rest = others;
    }
    Ok(words)
}

// The word with which a text begins, and what comes after it.
fn next_word(text: &[u8]) -> Result<(&[u8], &[u8]), WordEnd> {
    if let Some(quoted) = text.strip_prefix(b"'") {
        return cut(b'\'', quoted).ok_or(WordEnd::Open);
    }
    Ok(word_before_blank(text))
}

fn word_before_blank(text: &[u8]) -> (&[u8], &[u8]) {
    match cut(b' ', text) {
        Some(parts) => parts,
        None => (text, &[]),
    }
}
