// The words of a module are put into a store.
ghost use Rattle.std.specs.Prelude.{◌≡◌, ◌≤◌, ◌+◌, ◌++◌, ℕ, List, length};
ghost use Rattle.word_store.specs.Row.{with_words};
ghost use Rattle.module_text.specs.ReadingOn.{Reads};
ghost use Rattle.module_text.specs.declared.modules.Hunk.{Hunk};
ghost use Rattle.module_text.specs.declared.modules.Module.{Module};
ghost use Rattle.kernel_lists.specs.HunkLoader.Private.Follow.{FitsAt, HunkFollows};
ghost use Rattle.kernel_lists.specs.HunkLoader.ModuleRow.{hunks_image, lengths_of, module_row};
ghost use Rattle.kernel_lists.specs.HunkLoader.RelocatedWords.{relocated};

use crate::hunk_loader::copies::{copy_words, read_word};
use crate::hunk_loader::relocation::relocate;
use module_text::TextBytes;
use word_store::{Store, set_word_at};

// Puts the module of the text, which has so many hunks, at address m, with this link.
pub(crate) fn place_module<X: TextBytes>(text: &X, store: &mut Store, m: u32, link: u32, count: u32)
    requires { (hunks : Module) × FitsAt (X.text text.now) store.old m count hunks }
    ensures { (hunks : Module) → FitsAt (X.text text.now) store.old m count hunks
        → store.new ≡ with_words store.old m (module_row link m hunks.hunks) }
{
    store.set(m, link);
    set_word_at(store, m, 1, count);
    place_hunks(text, store, m, count);
}

// Puts the lengths of the hunks and their words after the first two words of a module.
fn place_hunks<X: TextBytes>(text: &X, store: &mut Store, m: u32, count: u32)
    requires { (hunks : Module) × FitsAt (X.text text.now) store.old m count hunks }
    ensures { (hunks : Module) → FitsAt (X.text text.now) store.old m count hunks
        → store.new ≡ with_words store.old (m + 2)
        (lengths_of hunks.hunks ++ hunks_image (m + 2 + count) hunks.hunks) }
{
    let lengths = store.address_of(m, 2);
    let mut place = 0;
    let mut base = store.address_of(lengths, count);
    for i in 0..count {
        let hunk = place_hunk(text, place, store, base);
        set_word_at(store, lengths, i, hunk.length);
        place = hunk.end;
        base = store.address_of(base, hunk.length);
    }
}

// The number of a hunk's words, and the place after its relocation lists.
#[derive(Clone, Copy)]
struct ReadHunk {
    /// How many words it has.
    length: u32,
    /// The place after its items in the text.
    end: u32,
}

// Puts a hunk's words at the base, and relocates them.
fn place_hunk<X: TextBytes>(text: &X, from: u32, store: &mut Store, base: u32) -> ReadHunk
    requires { (h : Hunk) × (others : List ℕ) × HunkFollows (X.text text.now) from h others
        × (base + length h.words ≤ length store.old) }
    ensures words { (h : Hunk) (others : List ℕ) → HunkFollows (X.text text.now) from h others
        → base + length h.words ≤ length store.old
        → store.new ≡ with_words store.old base (relocated base h.words h.relocations) }
    ensures count { (h : Hunk) (others : List ℕ) → HunkFollows (X.text text.now) from h others
        → result.length ≡ length h.words }
    ensures others { (h : Hunk) (others : List ℕ) → HunkFollows (X.text text.now) from h others
        → Reads (X.text text.now) result.end others }
{
    let kind = read_word(text, from);
    let count = read_word(text, kind.end);
    let after = store.address_of(base, count.word);
    let lists = copy_words(text, count.end, store, base, after);
    let end = relocate(text, lists, store, base);
    ReadHunk {
        length: count.word,
        end,
    }
}
