// Words of a store are relocated by the lists of a text.
ghost use Rattle.std.specs.Prelude.{◌≡◌, ◌+◌, ◌<◌, ℕ, List, slice_index, slice_set};
ghost use Rattle.std.specs.List.{concat};
ghost use Rattle.word_store.specs.Arithmetic.{add};
ghost use Rattle.module_text.specs.ReadingOn.{Reads};
ghost use Rattle.kernel_lists.specs.HunkLoader.Private.Follow.{AreInside, ListsFollow, OffsetsFollow, places};
ghost use Rattle.kernel_lists.specs.HunkLoader.RelocatedWords.{relocated};

use crate::hunk_loader::copies::read_word;
use module_text::{RELOCATIONS, TextBytes};
use word_store::{Store, add, set_word_at, word_at};

// Relocates the words of the hunk at the base by all relocation lists that follow. The answer is the place after them.
pub(crate) fn relocate<X: TextBytes>(text: &X, from: u32, store: &mut Store, base: u32) -> u32
    requires { (lists : List (List ℕ)) × (others : List ℕ)
        × ListsFollow (X.text text.now) from lists others
        × AreInside store.old (places base (concat lists)) }
    ensures words { (lists : List (List ℕ)) (others : List ℕ)
        → ListsFollow (X.text text.now) from lists others
        → store.new ≡ relocated base store.old (places base (concat lists)) }
    ensures others { (lists : List (List ℕ)) (others : List ℕ)
        → ListsFollow (X.text text.now) from lists others
        → Reads (X.text text.now) result others }
{
    let mut place = from;
    loop {
        let next = read_word(text, place);
        if next.word != RELOCATIONS {
            return place;
        }
        place = relocate_by_list(text, next.end, store, base);
    }
}

// Relocates words by one list, from the number of its offsets on. The answer is the place after the offsets.
fn relocate_by_list<X: TextBytes>(text: &X, from: u32, store: &mut Store, base: u32) -> u32
    requires { (offsets others : List ℕ) × OffsetsFollow (X.text text.now) from offsets others
        × AreInside store.old (places base offsets) }
    ensures words { (offsets others : List ℕ) → OffsetsFollow (X.text text.now) from offsets others
        → store.new ≡ relocated base store.old (places base offsets) }
    ensures others { (offsets others : List ℕ) → OffsetsFollow (X.text text.now) from offsets others
        → Reads (X.text text.now) result others }
    ensures further { from < result }
{
    let count = read_word(text, from);
    let mut place = count.end;
    for _ in 0..count.word {
        let offset = read_word(text, place);
        relocate_word(store, base, offset.word);
        place = offset.end;
    }
    place
}

// Adds the base to the word at an offset from it.
fn relocate_word(store: &mut Store, base: u32, offset: u32)
    ensures { store.new
        ≡ slice_set store.old (base + offset) (add (slice_index store.old (base + offset)) base) }
{
    let word = word_at(store, base, offset);
    set_word_at(store, base, offset, add(word, base));
}
