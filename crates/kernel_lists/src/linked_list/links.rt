// A node is linked in, and linked out. The word `offset` of a node holds its link.
ghost use Rattle.std.specs.Prelude.{◌≡◌, ◌+◌, None, Some, if◌then◌else◌};
ghost use Rattle.std.specs.Bool.{OnFalse, OnTrue};
ghost use Rattle.kernel_lists.specs.LinkedList.Chain.{list_at};
ghost use Rattle.kernel_lists.specs.LinkedList.Places.{cell_before, has, linked_in, linked_out, without_node};
ghost use Rattle.kernel_lists.specs.LinkedList.Walk.{CanWalk};

use crate::linked_list::walk::follow;
use word_store::{Store, set_word_at, word, word_at};

/// Links the node p after the word `cell`: it leads where that word led, and that word leads to it.
pub fn link_in(store: &mut Store, cell: u32, p: u32, offset: u32)
    ensures { store.new ≡ linked_in store.old (λ q. q + offset) cell p }
{
    let next = word(store, cell);
    set_word_at(store, p, offset, next);
    store.set(cell, p);
}

/// Links the node p out of the list at `head`: the word that led to it leads where it led. The answer is false exactly
/// where it is not in the list; then nothing is written.
pub fn unlink(store: &mut Store, head: u32, p: u32, offset: u32) -> bool
    requires { CanWalk store.old (λ q. q + offset) head }
    ensures found { result ≡ has p (list_at store.old (λ q. q + offset) head) }
    ensures words { OnTrue result (store.new ≡ without_node store.old (λ q. q + offset) head p) }
    ensures unchanged { OnFalse result (store.new ≡ store.old) }
{
    let Some(cell) = cell_before(store, head, p, offset) else {
        return false;
    };
    link_out(store, cell, p, offset);
    true
}

// Lets the word that leads to the node lead where the node leads.
fn link_out(store: &mut Store, cell: u32, p: u32, offset: u32)
    ensures { store.new ≡ linked_out store.old (λ q. q + offset) cell p }
{
    let next = word_at(store, p, offset);
    store.set(cell, next);
}

// The word that leads to the node; `None` exactly where it is not in the list.
fn cell_before(store: &Store, head: u32, p: u32, offset: u32) -> Option<u32>
    requires { CanWalk store.now (λ q. q + offset) head }
    ensures { result ≡ (if has p (list_at store.now (λ q. q + offset) head)
        then Some (cell_before (λ q. q + offset) p head (list_at store.now (λ q. q + offset) head))
        else None) }
{
    let mut cell = head;
    for q in follow(store, head, offset) {
        if q == p {
            return Some(cell);
        }
        cell = store.address_of(q, offset);
    }
    None
}
