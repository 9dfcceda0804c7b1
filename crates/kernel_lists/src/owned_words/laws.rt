// Laws of owned words.
ghost use Rattle.std.specs.Prelude.{◌≡◌, ◌++◌, ℕ, List};
ghost use Rattle.word_store.specs.Row.{with_words};
ghost use Rattle.kernel_lists.specs.OwnedWords.Owned.{Pairs, row_from, written};
ghost use Rattle.kernel_lists.specs.OwnedWords.Written.{HoldsWrites, IsWritten, OrderedWrites, Writes};

/// Where the owned words of a store are exchanged and the new ones written, the store holds what is owned afterwards, and
/// every word that nobody owns then is as it was, or as it was written besides.
pub fn written_law()
    ensures { (s : List ℕ) (before after old new kept plain : Pairs)
        → Writes s before after old new kept plain
        → IsWritten s (written (new ++ plain) s) after plain }
{}

/// The same, in whatever order these words are written.
pub fn ordered_law()
    ensures { (s : List ℕ) (before after old new kept plain all : Pairs)
        → OrderedWrites s before after old new kept plain all
        → IsWritten s (written all s) after plain }
{}

/// The same of a store of which only the words are known.
pub fn known_store_law()
    ensures { (s t : List ℕ) (before after old new plain : Pairs)
        → HoldsWrites s t before after old new plain → IsWritten s t after plain }
{}

/// Words that are written one after another are written as the pairs of their row.
pub fn row_law()
    ensures { (s : List ℕ) (a : ℕ) (words : List ℕ)
        → with_words s a words ≡ written (row_from a 0 words) s }
{}
