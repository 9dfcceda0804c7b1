// The nodes of a linked list, one after the other.
ghost use Rattle.std.specs.Prelude.{◌≡◌, ◌+◌, ℕ, List};
ghost use Rattle.std.specs.Iterator.{YieldsFirst, item_count};
ghost use Rattle.kernel_lists.specs.LinkedList.Chain.{list_at};
ghost use Rattle.kernel_lists.specs.LinkedList.Walk.{CanWalk, IsWalk};

use std::marker::Model;
use word_store::{Store, word};

/// The nodes of a list that are left, seen as the list of their addresses.
#[derive(Drop)]
pub struct Nodes<'a> {
    /// The store.
    store: &'a Store,
    // the word that leads to the next node
    at: u32,
    // where the link of a node is, counted from its address
    offset: u32,
}

impl<'a> Model for Nodes<'a> {
    ghost use Rattle.std.specs.Prelude.{ℕ, List, ◌+◌};
    ghost use Rattle.kernel_lists.specs.LinkedList.Chain.{list_at};
    ghost use Rattle.kernel_lists.specs.LinkedList.Walk.{CanWalk};

    ghost Value = { List ℕ };

    ghost view = { λ it. list_at it.store.now (λ p. p + it.offset) it.at };

    ghost invariant = { λ it. CanWalk it.store.now (λ p. p + it.offset) it.at };
}

/// The nodes of the list at `head`, in order. The word `offset` of a node holds the address of the next one, or 0.
pub fn follow(store: &Store, head: u32, offset: u32) -> Nodes<'_>
    requires { CanWalk store.now (λ p. p + offset) head }
    ensures { result ≡ list_at store.now (λ p. p + offset) head }
{
    Nodes {
        store,
        at: head,
        offset,
    }
}

impl Iterator for Nodes<'_> {
    type Item = u32;

    ghost next_gives = { YieldsFirst (λ rest. rest) };

    ghost remaining = { item_count (λ rest. rest) };

    fn next(&mut self) -> Option<u32> {
        let node = word(self.store, self.at);
        if node == 0 {
            return None;
        }
        self.at = self.store.address_of(node, self.offset);
        Some(node)
    }
}
