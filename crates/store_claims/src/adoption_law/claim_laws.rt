// Laws of claimed words: they are those that the lists own.
ghost use Rattle.std.specs.Prelude.{◌≡◌, ◌↔◌, ◌+◌, ◌<◌, ◌≤◌, Bool, ℕ, List, true};
ghost use Rattle.kernel_lists.specs.declared.getvec_chain.pieces.Block.{Block};
ghost use Rattle.kernel_lists.specs.GetvecChain.Tiling.{Follow, IsTiled};
ghost use Rattle.kernel_model.specs.KernelRecord.HoldsLists.{HoldsLists};
ghost use Rattle.kernel_model.specs.KernelRecord.Owned.{OwnsApart};
ghost use Rattle.kernel_model.specs.KernelRecord.Recovered.{lists_in};
ghost use Rattle.kernel_model.specs.KernelRecord.ValidBlocks.{AreData};
ghost use Rattle.store_claims.specs.ListClaims.BlockData.{is_used_data};
ghost use Rattle.store_claims.specs.ListClaims.ListEnds.{AllEnd};
ghost use Rattle.store_claims.specs.ListClaims.ListWords.{Can, all_words};
ghost use Rattle.store_claims.specs.AdoptionLaw.ClaimableStore.{AreClaimable, OpensData};
ghost use Rattle.store_claims.specs.AdoptionLaw.ClaimCounts.{AreUsed, claim_count};
ghost use Rattle.store_claims.specs.AdoptionLaw.Passes.{IsValidRoot};

/// Where root and blocks are right, and each word that a list has is claimed once, among the data of used blocks, no word is owned
/// twice, and each is one of the store. Where the store holds the words of valid lists, what is claimed are such data. And words
/// of a range, all of them such data, are data of one block.
pub fn claimed_law()
    ensures owns { (s : List ℕ) → IsValidRoot s → IsTiled s
        → ((a : ℕ) → claim_count a (lists_in s) ≤ 1) → AreUsed s
        → OwnsApart (lists_in s) }
    ensures once { (s : List ℕ) (a : ℕ) → HoldsLists s (lists_in s)
        → claim_count a (lists_in s) ≤ 1 }
    ensures used { (s : List ℕ) → HoldsLists s (lists_in s) → AreUsed s }
    ensures lodged { (bs : List Block) (end p n : ℕ) → Follow 200 bs end → 0 < n
        → ((a : ℕ) → p ≤ a → a < p + n → is_used_data a bs ≡ true)
        → AreData bs p n }
{}

/// Where the open words are the data of the used blocks, the walks succeed exactly where all lists end, no word is met twice, and
/// each is one of such data. So they succeed where the store holds the words of valid lists; and where they succeed, no word is
/// owned twice.
pub fn counted_law()
    ensures claimable { (s : List ℕ) (m : List Bool) → IsTiled s → OpensData s m
        → Can (AllEnd s) m (all_words s) ↔ AreClaimable s }
    ensures valid { (s : List ℕ) → HoldsLists s (lists_in s) → AreClaimable s }
    ensures owns { (s : List ℕ) → IsValidRoot s → IsTiled s → AreClaimable s
        → OwnsApart (lists_in s) }
{}
