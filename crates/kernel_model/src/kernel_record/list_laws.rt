// Laws of valid lists: how they are in a store that holds their words, and where these words lie.
ghost use Rattle.std.specs.Prelude.{◌≡◌, ◌<◌, ◌↔◌, ◌++◌, ◌∷◌, ℕ, List, length, true};
ghost use Rattle.kernel_lists.specs.OwnedWords.Owned.{Holds, owners};
ghost use Rattle.kernel_lists.specs.declared.getvec_chain.pieces.Block.{Block};
ghost use Rattle.kernel_lists.specs.GetvecChain.Block.{block_end};
ghost use Rattle.kernel_model.specs.KernelRecord.HoldsLists.{HoldsLists};
ghost use Rattle.kernel_model.specs.KernelRecord.KernelRanges.{CanWalkLists, is_kernel_word, packet_ranges, packet_words_of};
ghost use Rattle.kernel_model.specs.KernelRecord.Lists.{Lists, queued};
ghost use Rattle.kernel_model.specs.KernelRecord.Owned.{owned};
ghost use Rattle.kernel_model.specs.KernelRecord.ReadsLists.{ReadsLists};
ghost use Rattle.kernel_model.specs.KernelRecord.Recovered.{lists_in};
ghost use Rattle.kernel_model.specs.KernelRecord.UsedData.{OwnedWhere};
ghost use Rattle.kernel_model.specs.KernelRecord.ValidLists.{AreValid};

/// Where a store holds the words that valid lists own, each of the lists is in it: the blocks tile, the chain of tasks, the
/// modules, the queues and the coroutines are those that the links form.
pub fn reading_law()
    ensures { (s : List ℕ) (l : Lists) → AreValid l → length s ≡ l.size → Holds s (owned l)
        → ReadsLists s l }
{}

/// So the lists are a function of the store.
pub fn lists_law()
    ensures { (s : List ℕ) (l : Lists) → AreValid l → length s ≡ l.size → Holds s (owned l)
        → lists_in s ≡ l }
{}

/// So all lists of the store can be walked. The words of what a walk shows are exactly those that are owned, and the packets
/// that it shows are those that are queued.
pub fn ranges_law()
    ensures walk { (s : List ℕ) (l : Lists) → HoldsLists s l → CanWalkLists s }
    ensures owned { (s : List ℕ) (l : Lists) (a : ℕ) → HoldsLists s l
        → is_kernel_word s a ≡ true ↔ 0 < owners a (owned l) }
    ensures packets { (s : List ℕ) (l : Lists) → HoldsLists s l
        → packet_ranges s ≡ packet_words_of (queued l) }
{}

/// An owned word is a word of the root, the end word, a size word, or lies in the data of a used block; so nobody owns the data
/// of a free block.
pub fn data_law()
    ensures used { (l : Lists) (a : ℕ) → AreValid l → 0 < owners a (owned l) → OwnedWhere l a }
    ensures free { (l : Lists) (before : List Block) (b : Block) (after : List Block) (a : ℕ)
        → AreValid l → l.blocks ≡ before ++ b ∷ after → b.free ≡ true
        → b.start < a → a < block_end b → owners a (owned l) ≡ 0 }
{}
