// The programs of a session, as their words are wherever they are loaded.
ghost use Rattle.std.specs.Prelude.{◌≡◌, ◌++◌, ◌+◌, ◌≤◌, drop, length, slice_get, IfOk, OnOk};
ghost use Rattle.run_names.specs.Programs.{fixed_words, hunk_length, is_loaded, is_other, is_program_at, known_program, line_programs, others, programs_of, unfixed_once};

use module_text::{Hunk, TextEnd, read_module};
use ram_disc::Name;
use session_text::{LineForm, Session, SessionLine};
use std::alloc::{AllocError, Global};
use std::marker::Model;
use word_store::Store;

/// A text of so many bytes, or more, is no program's.
const TOO_LONG: usize = 1 << 30;

/// A program: a file whose text is a module. Contracts see its name, the lengths of its hunks, and the words of all hunks, of which those
/// that have an address added to them are not known.
#[derive(Drop)]
pub struct KnownProgram {
    /// The name of the file.
    name: Name,
    /// The lengths of its hunks, in words.
    lengths: Vec<u32>,
    /// The words of its hunks, one hunk after the other; `None` is one to which an address is added when it is loaded.
    words: Vec<Option<u32>>,
}

impl Model for KnownProgram {
    ghost use Rattle.run_names.specs.Known.{Known};

    ghost Value = { Known };

    ghost view = { λ p. record {
      name = p.name;
      lengths = p.lengths.items;
      words = p.words.items;
    } };
}

impl KnownProgram {
    /// Its name, which is that of its file.
    pub fn name(&self) -> &[u8]
        ensures { result.now ≡ self.now.name }
    {
        self.name.bytes()
    }
}

/// The programs of a session, in their order.
pub fn known_programs(alloc: Global, session: &Session) -> Result<Vec<KnownProgram>, AllocError>
    ensures { IfOk result (λ v. v.items ≡ programs_of session.now) }
{
    let mut programs = Vec::new(alloc);
    for line in session.lines.as_slice() {
        add_program(alloc, line, &mut programs)?;
    }
    Ok(programs)
}

// Adds the program that a line gives, if it gives one.
fn add_program(
    alloc: Global,
    line: &SessionLine,
    programs: &mut Vec<KnownProgram>,
) -> Result<(), AllocError>
    ensures { OnOk result (programs.new.items ≡ programs.old.items ++ line_programs line.now) }
{
    let LineForm::File { name, bytes } = &line.form else {
        return Ok(());
    };
    if bytes.as_slice().len() >= TOO_LONG {
        return Ok(());
    }
    match read_module(alloc, bytes.as_slice()) {
        Ok(module) => {
            programs.push(known_program(alloc, name, module.hunks.as_slice())?)?;
            Ok(())
        }
        Err(TextEnd::Bad { .. }) => Ok(()),
        Err(TextEnd::WantMemory) => Err(AllocError),
    }
}

// The program of this name, of these hunks.
fn known_program(alloc: Global, name: &Name, hunks: &[Hunk]) -> Result<KnownProgram, AllocError>
    ensures { IfOk result (λ p. p ≡ known_program name.now hunks.now) }
{
    let mut lengths = Vec::new(alloc);
    let mut words = Vec::new(alloc);
    for hunk in hunks {
        lengths.push(hunk_length(hunk))?;
        let mut fixed = fixed_words(alloc, hunk)?;
        words.append(&mut fixed)?;
    }
    Ok(KnownProgram {
        name: name.copy(),
        lengths,
        words,
    })
}

// How many words a hunk has; no store has room for more than are told.
fn hunk_length(hunk: &Hunk) -> u32
    ensures { result ≡ hunk_length hunk.now }
{
    hunk.words.as_slice().len().min(u32::MAX as usize) as u32
}

// The words of a hunk, without those to which an address is added.
fn fixed_words(alloc: Global, hunk: &Hunk) -> Result<Vec<Option<u32>>, AllocError>
    ensures { IfOk result (λ v. v.items ≡ fixed_words hunk.now) }
{
    let mut words = Vec::new(alloc);
    for word in hunk.words.as_slice() {
        words.push(Some(*word))?;
    }
    for offset in hunk.relocations.as_slice() {
        unfix(&mut words, *offset);
    }
    Ok(words)
}

// The word at an offset is not known any more.
fn unfix(words: &mut Vec<Option<u32>>, offset: u32)
    ensures { words.new.items ≡ unfixed_once words.old.items offset }
{
    let i = offset as usize;
    if i < words.len() {
        words[i] = None;
    }
}

/// Whether the module at word m of a store is that of a program: it has hunks of the same lengths, and of the words that are the same
/// wherever it is loaded, at most a quarter are others. Data may have changed since it was loaded.
pub fn is_loaded(program: &KnownProgram, store: &Store, m: u32) -> bool
    ensures { result ≡ is_loaded store.now m program.now }
{
    match words_after(store, m) {
        [count, words @ ..] => {
            *count as usize == program.lengths.len()
                && is_like(program.lengths.as_slice(), program.words.as_slice(), words)
        }
        [] => false,
    }
}

// The words of a store after the one at m.
fn words_after(store: &Store, m: u32) -> &[u32]
    ensures { result.now ≡ drop (m + 1) store.now }
{
    if m >= store.size() {
        return &[];
    }
    store.words(m + 1, store.size() - (m + 1)).unwrap_or(&[])
}

// Whether words begin with these lengths, and after them at most a quarter of the known words are others.
fn is_like(lengths: &[u32], known: &[Option<u32>], words: &[u32]) -> bool
    ensures { result ≡ is_program_at lengths.now known.now words.now }
{
    let Some(loaded) = words.strip_prefix(lengths) else {
        return false;
    };
    let fixed = known.iter().filter(|word| word.is_some()).count();
    others(known, loaded) <= fixed / 4
}

// How many of the known words are others than those that are there, one by one.
fn others(known: &[Option<u32>], loaded: &[u32]) -> usize
    ensures value { result ≡ others known.now loaded.now }
    ensures small { result ≤ length known.now }
{
    let mut count = 0;
    let mut rest = loaded;
    for word in known {
        let (there, after) = first_word(rest);
        if is_other(*word, there) {
            count += 1;
        }
        rest = after;
    }
    count
}

// The first of some words, if there is one, and those after it.
fn first_word(words: &[u32]) -> (Option<u32>, &[u32])
    ensures first { result.0 ≡ slice_get words.now 0 }
    ensures after { result.1.now ≡ drop 1 words.now }
{
    match words {
        [first, others @ ..] => (Some(*first), others),
        [] => (None, &[]),
    }
}

// Whether a word that is known is not the one that is there.
fn is_other(known: Option<u32>, there: Option<u32>) -> bool
    ensures { result ≡ is_other known there }
{
    match known {
        Some(word) => there != Some(word),
        None => false,
    }
}
