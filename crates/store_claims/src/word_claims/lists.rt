// The words of all nodes of a list are claimed.
ghost use Rattle.std.specs.Prelude.{◌≡◌, ◌↔◌, ◌+◌, ◌<◌, ◌≤◌, ℕ, IsTrue, List, length};
ghost use Rattle.std.specs.Bool.{OnTrue};
ghost use Rattle.kernel_lists.specs.LinkedList.Chain.{list_at};
ghost use Rattle.word_store.specs.Count.{words_of};
ghost use Rattle.store_claims.specs.WordClaims.ClaimableLists.{CanClaim};
ghost use Rattle.store_claims.specs.WordClaims.Marks.{AreClaimed};

use crate::word_claims::claims::Claims;
use word_store::{Store, word};

/// How many words a node of a list has.
pub trait NodeKind {
    /// The words of the node at an address of a store.
    ghost words_in: { Self → List ℕ → ℕ → ℕ };

    fn words(&self, store: &Store, node: u32) -> u64
        ensures { result ≡ words_in self.now store.now node };
}

/// Claims the words of all nodes of the list at `head`, of which the word `offset` is the link. The answer is true exactly where
/// the links end, and these words are open and apart; so no node is met twice, and the walk is no longer than the store. Where it
/// is false, some of them may have been claimed.
pub fn claim_list<K: NodeKind>(
    store: &Store,
    claims: &mut Claims,
    head: u32,
    offset: u32,
    kind: &K,
) -> bool
    requires room { length claims.old ≤ length store.now }
    requires link { (p : ℕ) → offset < K.words_in kind.now store.now p }
    ensures answer { IsTrue result
        ↔ CanClaim store.now (λ p. p + offset) (K.words_in kind.now store.now) claims.old head }
    ensures claimed { OnTrue result (AreClaimed claims.old claims.new
        (words_of (K.words_in kind.now store.now) (list_at store.now (λ p. p + offset) head))) }
    ensures size { length claims.new ≡ length claims.old }
{
    let mut at = head;
    for i in 0..store.size() {
        let node = word(store, at);
        if node == 0 {
            return true;
        }
        if !claims.claim(node, kind.words(store, node)) {
            return false;
        }
        at = store.address_of(node, offset);
    }
    word(store, at) == 0
}
