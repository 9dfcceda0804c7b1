// Reading the text of a module.
ghost use Rattle.std.specs.Prelude.{◌≡◌, ◌-◌, ◌<◌, ◌≤◌, ◌^◌, [], ◌∷◌, length, IfErr, IfOk, OnOk};
ghost use Rattle.module_text.specs.Places.{bytes_in};
ghost use Rattle.module_text.specs.TextReader.Answers.{Gives};
ghost use Rattle.module_text.specs.Answers.{or_bad};
ghost use Rattle.module_text.specs.Canonical.{IsPrintable};
ghost use Rattle.module_text.specs.Grammar.{finish};
ghost use Rattle.module_text.specs.declared.text_reader.ends.TextEnd.TheVariants.{WantMemory};
ghost use Rattle.module_text.specs.Tokens.{line_at};
ghost use Rattle.module_text.specs.ModuleOfText.{Adds, Rest, hunk, module_of, put, read_token, rest};

use crate::grammar::{Expects, finish};
use crate::step::{Step, read_token};
use crate::text_reader::TextEnd;
use crate::tokens::{Span, next_span};
use crate::{Hunk, Hunks, Module, SliceText, WordList};
use std::alloc::Global;

/// The module of a text. `Bad` comes exactly where the text is none, with the line of the first token that cannot follow
/// those before it, or of the text's end, and its code: 1 it is no word, 2 the text ends inside an item, 3 no item of this
/// type may be here, 4 an offset is not below its hunk's length, 5 the text ends where an item could begin, 6 a token
/// follows the end word.
pub fn read_module(alloc: Global, text: &[u8]) -> Result<Module, TextEnd>
    requires { length text.now < 2 ^ 32 - 1 }
    ensures value { Gives (λ m. m) result (module_of text.now) }

    // A module that was read has no more hunks than its text has bytes, and from a text of fewer than 2 ^ 30 bytes it can
    // be printed.
    ensures count { IfOk result (λ m. length m.hunks ≤ length text.now) }
    ensures printable { length text.now < 2 ^ 30 → IfOk result IsPrintable }
{
    whole_module(alloc, text)
}

// The module of a text, token by token.
fn whole_module(alloc: Global, text: &[u8]) -> Result<Module, TextEnd>
    requires { length text.now < 2 ^ 32 - 1 }
    ensures { Gives (λ m. m) result (module_of text.now) }
{
    let mut hunks = Vec::new(alloc);
    let mut expects = Expects::FirstType;
    let mut place = 0;
    while let Some(token) = next_span(&SliceText::new(text), place) {
        let step = step_or_refusal(text, expects, token)?;
        put(alloc, &mut hunks, expects, step.word)?;
        expects = step.next;
        place = token.end;
    }
    finish_or_refusal(text, expects)?;
    Ok(Module {
        hunks: Hunks::new(hunks),
    })
}

// A token more, or the refusal of it.
fn step_or_refusal(text: &[u8], expects: Expects, token: Span) -> Result<Step, TextEnd>
    requires short { length text.now < 2 ^ 32 - 1 }
    requires some { token.start < token.end }
    requires inside { token.end ≤ length text.now }
    ensures { let step = read_token expects (bytes_in text.now token) in
        result ≡ or_bad (line_at text.now token.start) step }
{
    read_token(&SliceText::new(text), expects, token).map_err(|code| TextEnd::Bad {
        line: line_at(text, token.start),
        code,
    })
}

// The end of the text, or the refusal of it.
fn finish_or_refusal(text: &[u8], expects: Expects) -> Result<(), TextEnd>
    requires { length text.now < 2 ^ 32 - 1 }
    ensures { result ≡ or_bad (line_at text.now (length text.now)) (finish expects) }
{
    finish(expects).map_err(|code| TextEnd::Bad {
        line: line_at(text, text.len() as u32),
        code,
    })
}

// The line of a place, from 1.
fn line_at(text: &[u8], place: u32) -> u32
    requires short { length text.now < 2 ^ 32 - 1 }
    requires inside { place ≤ length text.now }
    ensures { result ≡ line_at text.now place }
{
    let before = &text[..place as usize];
    1 + before.iter().filter(|byte| **byte == b'\n').count() as u32
}

// Adds a word of which this was expected to the hunks: a length begins a hunk.
fn put(alloc: Global, hunks: &mut Vec<Hunk>, expects: Expects, word: u32) -> Result<(), TextEnd>
    ensures added { OnOk result (Adds (put expects word) hunks.old.items hunks.new.items) }
    ensures memory { IfErr result (λ e. e ≡ WantMemory) }
{
    match expects {
        Expects::Length => hunks.push(no_words(alloc))?,
        Expects::Word { .. } => push_word(hunks, word)?,
        Expects::Offset { .. } => push_offset(hunks, word)?,
        _ => {}
    }
    Ok(())
}

// A hunk of no words.
fn no_words(alloc: Global) -> Hunk
    ensures { result ≡ hunk [] [] }
{
    Hunk {
        words: WordList::new(Vec::new(alloc)),
        relocations: WordList::new(Vec::new(alloc)),
    }
}

// Adds a word to the last hunk.
fn push_word(hunks: &mut Vec<Hunk>, word: u32) -> Result<(), TextEnd>
    ensures added { let with_word = λ (r : Rest). rest (word ∷ r.words) r.relocations r.hunks in
        OnOk result (Adds with_word hunks.old.items hunks.new.items) }
    ensures memory { IfErr result (λ e. e ≡ WantMemory) }
{
    if let Some(hunk) = hunks.last_mut() {
        hunk.words.push(word)?;
    }
    Ok(())
}

// Adds a relocation to the last hunk.
fn push_offset(hunks: &mut Vec<Hunk>, offset: u32) -> Result<(), TextEnd>
    ensures added { let with_offset = λ (r : Rest). rest r.words (offset ∷ r.relocations) r.hunks in
        OnOk result (Adds with_offset hunks.old.items hunks.new.items) }
    ensures memory { IfErr result (λ e. e ≡ WantMemory) }
{
    if let Some(hunk) = hunks.last_mut() {
        hunk.relocations.push(offset)?;
    }
    Ok(())
}
