// Laws of blocks: of the first run, and of the words that blocks own.
ghost use Rattle.std.specs.Prelude.{◌≡◌, ◌<◌, ◌+◌, ◌-◌, ℕ, List, None, Some, length, slice_index};
ghost use Rattle.kernel_lists.specs.OwnedWords.Owned.{Holds};
ghost use Rattle.kernel_lists.specs.declared.getvec_chain.pieces.Block.{Block};
ghost use Rattle.kernel_lists.specs.declared.getvec_chain.pieces.Run.{Run};
ghost use Rattle.kernel_lists.specs.GetvecChain.BlockWords.{GiveExchange, TakeExchange, blocks_words};
ghost use Rattle.kernel_lists.specs.GetvecChain.Give.{given_store};
ghost use Rattle.kernel_lists.specs.GetvecChain.Run.{IsFirstRun, IsMaximalRun, first_run};
ghost use Rattle.kernel_lists.specs.GetvecChain.Take.{IsTaken};
ghost use Rattle.kernel_lists.specs.GetvecChain.Tiling.{Follow, IsTiled, blocks_in, used_at};

/// The first run that is large enough is the first of all maximal runs that are; where there is none, each maximal run has
/// fewer words.
pub fn first_run_law()
    ensures found { (s : List ℕ) (n : ℕ) (run : Run) → 0 < n → IsTiled s
        → first_run n (blocks_in s) ≡ Some run → IsFirstRun n (blocks_in s) run }
    ensures none { (s : List ℕ) (n : ℕ) → 0 < n → IsTiled s → first_run n (blocks_in s) ≡ None
        → (run : Run) → IsMaximalRun (blocks_in s) run → run.end - run.start < n }
{}

/// A store that holds the size words of blocks that follow one another up to an end word of 0, its last word but one, has
/// these blocks.
pub fn held_blocks_law()
    ensures tiled { (s : List ℕ) (bs : List Block) (end : ℕ) → Follow 200 bs end
        → end + 2 ≡ length s → slice_index s end ≡ 0 → Holds s (blocks_words bs) → IsTiled s }
    ensures blocks { (s : List ℕ) (bs : List Block) (end : ℕ) → Follow 200 bs end
        → end + 2 ≡ length s → slice_index s end ≡ 0 → Holds s (blocks_words bs)
        → blocks_in s ≡ bs }
{}

/// What a take and a give do to the words that blocks own.
pub fn block_words_law()
    ensures take { (s t : List ℕ) (u v : ℕ) → IsTiled s → IsTaken s t u v → TakeExchange s t u }
    ensures give { (s : List ℕ) (v : ℕ) (b : Block) → IsTiled s → used_at v (blocks_in s) ≡ Some b
        → GiveExchange s (given_store s v) b }
{}
