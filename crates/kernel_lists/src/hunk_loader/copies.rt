// Words of a text are copied to a store.
ghost use Rattle.std.specs.Prelude.{◌≡◌, ℕ, List, IsSome, Some};
ghost use Rattle.word_store.specs.Row.{with_words};
ghost use Rattle.module_text.specs.Places.{next_word};
ghost use Rattle.module_text.specs.ReadingOn.{Reads};
ghost use Rattle.kernel_lists.specs.HunkLoader.Private.Follow.{WordsFollow};

use module_text::{NextWord, TextBytes, next_word};
use word_store::Store;

// The next word of a text that has one.
pub(crate) fn read_word<X: TextBytes>(text: &X, place: u32) -> NextWord
    requires { IsSome (next_word (X.text text.now) place) }
    ensures { next_word (X.text text.now) place ≡ Some result }
{
    next_word(text, place).unwrap()
}

// Copies words of the text to the addresses from `at` up to `end`. The answer is the place after the last of them.
pub(crate) fn copy_words<X: TextBytes>(
    text: &X,
    from: u32,
    store: &mut Store,
    at: u32,
    end: u32,
) -> u32
    requires { (words others : List ℕ) × WordsFollow (X.text text.now) from at end words others }
    ensures words { (words others : List ℕ) → WordsFollow (X.text text.now) from at end words others
        → store.new ≡ with_words store.old at words }
    ensures others { (words others : List ℕ)
        → WordsFollow (X.text text.now) from at end words others
        → Reads (X.text text.now) result others }
{
    let mut place = from;
    for a in at..end {
        let next = read_word(text, place);
        store.set(a, next.word);
        place = next.end;
    }
    place
}
