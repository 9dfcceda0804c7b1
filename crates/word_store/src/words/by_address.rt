// Words by their addresses. What is at an address is a row of words, numbered from 0.
ghost use Rattle.std.specs.Prelude.{◌≡◌, ◌+◌, ◌≤◌, length, slice_index, slice_set};
ghost use Rattle.word_store.specs.Row.{with_words};

use super::Store;

impl Store {
    /// The address of word i of what is at address a. It is inside, or directly after the last word.
    pub fn address_of(&self, a: u32, i: u32) -> u32
        requires { a + i ≤ length self.now }
        ensures { result ≡ a + i }
    {
        // an address is the number of words before it
        self.words[..a as usize + i as usize].len() as u32
    }
}

/// The word at address a, or 0 where it is outside.
pub fn word(store: &Store, a: u32) -> u32
    ensures { result ≡ slice_index store.now a }
{
    store.get(a).unwrap_or(0)
}

/// Word i of what is at address a, or 0 where it is outside.
pub fn word_at(store: &Store, a: u32, i: u32) -> u32
    ensures { result ≡ slice_index store.now (a + i) }
{
    store
        .words
        .get(a as usize + i as usize)
        .copied()
        .unwrap_or(0)
}

/// Sets word i of what is at address a. Where it is outside, nothing changes.
pub fn set_word_at(store: &mut Store, a: u32, i: u32, w: u32)
    ensures { store.new ≡ slice_set store.old (a + i) w }
{
    let at = a as usize + i as usize;
    if at < store.words.len() {
        store.words[at] = w;
    }
}

/// Writes these words from address a on.
pub fn set_words(store: &mut Store, a: u32, words: &[u32])
    requires { a + length words.now ≤ length store.old }
    ensures { store.new ≡ with_words store.old a words.now }
{
    put_words(&mut store.words, a as usize, words);
}

fn put_words(all: &mut [u32], at: usize, words: &[u32])
    requires { at + length words.now ≤ length all.old }
    ensures { all.new ≡ with_words all.old at words.now }
{
    for (i, w) in words.iter().enumerate() {
        all[at + i] = *w;
    }
}
