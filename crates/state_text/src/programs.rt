// The programs whose modules are in a store, by their words.
ghost use Rattle.std.specs.Prelude.{◌≡◌, ◌+◌, ◌<◌, ◌≤◌, ◌^◌, ◌++◌, IsTrue, drop, length, nat_eq, slice_index};
ghost use Rattle.std.specs.List.{starts_with};
ghost use Rattle.std.specs.Option.{option_copied};
ghost use Rattle.kernel_lists.specs.HunkLoader.ModuleRow.{hunks_image, lengths_of};
ghost use Rattle.kernel_lists.specs.HunkLoader.RelocatedWords.{relocated};
ghost use Rattle.state_text.specs.ProgramNames.{is_loaded, name_in};

use module_text::{Hunk, Hunks};
use ram_disc::Name;
use word_store::{Store, add};

/// A program: a file whose text is a module.
#[derive(Drop)]
pub struct Program {
    /// The name of the file.
    pub name: Name,
    /// The hunks of the module that its text is.
    pub hunks: Hunks,
}

/// The name of the first of the programs that is at m, if one is.
pub(crate) fn name_in<'a>(programs: &'a [Program], store: &Store, m: u32) -> Option<&'a [u8]>
    ensures { option_copied result ≡ name_in programs.now store.now m }
{
    for program in programs {
        if is_loaded(program, store, m) {
            return Some(program.name.bytes());
        }
    }
    None
}

// Whether the words of the program are at m, but for the link.
fn is_loaded(program: &Program, store: &Store, m: u32) -> bool
    ensures { result ≡ is_loaded store.now m program.now }
{
    let hunks = program.hunks.as_slice();
    match words_behind(store, m) {
        [count, words @ ..] => *count as usize == hunks.len() && has_hunks(words, m, hunks),
        [] => false,
    }
}

// The words behind the one at m.
fn words_behind(store: &Store, m: u32) -> &[u32]
    ensures words { result.now ≡ drop (m + 1) store.now }
    ensures room { 0 < length result.now → m + 1 + length result.now < 2 ^ 32 }
{
    if m >= store.size() {
        return &[];
    }
    store.words(m + 1, store.size() - (m + 1)).unwrap_or(&[])
}

// Whether words begin with the lengths of the hunks and their words, as they are loaded at m.
fn has_hunks(words: &[u32], m: u32, hunks: &[Hunk]) -> bool
    requires { m + 2 + length words.now < 2 ^ 32 }
    ensures { result ≡ starts_with nat_eq words.now
        (lengths_of hunks.now ++ hunks_image (m + 2 + length hunks.now) hunks.now) }
{
    if !has_lengths(words, hunks) {
        return false;
    }
    let base = m + 2 + hunks.len() as u32;
    has_images(words_after(words, hunks.len()), base, hunks)
}

// Whether words begin with the lengths of the hunks.
fn has_lengths(words: &[u32], hunks: &[Hunk]) -> bool
    ensures words { result ≡ starts_with nat_eq words.now (lengths_of hunks.now) }
    ensures room { IsTrue result → length hunks.now ≤ length words.now }
{
    let mut rest = words;
    for hunk in hunks {
        match rest {
            [word, others @ ..] if *word as usize == hunk.words.as_slice().len() => rest = others,
            _ => return false,
        }
    }
    true
}

// Whether words begin with those of the hunks, of which the first is loaded at the base.
fn has_images(words: &[u32], base: u32, hunks: &[Hunk]) -> bool
    requires { base + length words.now < 2 ^ 32 }
    ensures { result ≡ starts_with nat_eq words.now (hunks_image base hunks.now) }
{
    let mut rest = words;
    let mut base = base;
    for hunk in hunks {
        if !has_image(rest, base, hunk) {
            return false;
        }
        let n = hunk.words.as_slice().len();
        rest = words_after(rest, n);
        base += n as u32;
    }
    true
}

// The words after the first n.
fn words_after(words: &[u32], n: usize) -> &[u32]
    requires { n ≤ length words.now }
    ensures { result.now ≡ drop n words.now }
{
    &words[n..]
}

// Whether words begin with those of the hunk, relocated by the base.
fn has_image(words: &[u32], base: u32, hunk: &Hunk) -> bool
    ensures words { result
        ≡ starts_with nat_eq words.now (relocated base hunk.now.words hunk.now.relocations) }
    ensures room { IsTrue result → length hunk.now.words ≤ length words.now }
{
    let mut rest = words;
    for i in 0..hunk.words.as_slice().len() {
        match rest {
            [word, others @ ..] if *word == relocated_word(hunk, i, base) => rest = others,
            _ => return false,
        }
    }
    true
}

// Word i of a hunk: the base is added to it once for each time that its offset is among the relocations.
fn relocated_word(hunk: &Hunk, i: usize, base: u32) -> u32
    requires { i < length hunk.now.words }
    ensures { result ≡ slice_index (relocated base hunk.now.words hunk.now.relocations) i }
{
    let mut word = hunk.words.as_slice()[i];
    for offset in hunk.relocations.as_slice() {
        if *offset as usize == i {
            word = add(word, base);
        }
    }
    word
}
