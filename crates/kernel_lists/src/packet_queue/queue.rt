// Queues: packets come to the end, and leave from the front or from between.
ghost use Rattle.std.specs.Prelude.{◌≡◌, ◌↔◌, [], ◌∷◌, ◌++◌, IfNone, IfSome, IsNone, IsTrue};
ghost use Rattle.std.specs.Bool.{OnFalse, OnTrue};
ghost use Rattle.kernel_lists.specs.LinkedList.Places.{has, without};
ghost use Rattle.kernel_lists.specs.PacketQueue.Queue.{CanQueue, HasQueue, appended, queue_at, unlinked};

use crate::linked_list::unlink;
use crate::packet_queue::places::last_link;
use crate::packet_queue::walk::PACKET_LINK;
use word_store::{Store, word};

/// The link of a packet that is on no queue.
pub const NO_QUEUE: u32 = 0xffff_ffff;

/// Puts the packet at the end of the queue.
pub fn append(store: &mut Store, head: u32, p: u32)
    requires queue { HasQueue store.old head }
    requires packet { CanQueue store.old head p }
    ensures queue { queue_at store.new head ≡ queue_at store.old head ++ p ∷ [] }
    ensures valid { HasQueue store.new head }
    ensures words { store.new ≡ appended store.old head p }
{
    let cell = last_link(store, head);
    store.set(p, 0);
    store.set(cell, p);
}

/// Takes the first packet from the queue. There is none exactly where the queue is empty; then nothing is written.
pub fn take(store: &mut Store, head: u32) -> Option<u32>
    requires { HasQueue store.old head }
    ensures first { IfSome result (λ p. queue_at store.old head ≡ p ∷ queue_at store.new head) }
    ensures valid { HasQueue store.new head }
    ensures words { IfSome result (λ p. store.new ≡ unlinked store.old head p) }
    ensures empty { IsNone result ↔ (queue_at store.old head ≡ []) }
    ensures unchanged { IfNone result (store.new ≡ store.old) }
{
    let p = word(store, head);
    if p == 0 {
        return None;
    }
    remove(store, head, p);
    Some(p)
}

/// Removes the packet from the queue. The answer is false exactly where it is not there; then nothing is written.
pub fn remove(store: &mut Store, head: u32, p: u32) -> bool
    requires { HasQueue store.old head }
    ensures found { result ≡ has p (queue_at store.old head) }
    ensures queue { queue_at store.new head ≡ without p (queue_at store.old head) }
    ensures valid { HasQueue store.new head }
    ensures words { OnTrue result (store.new ≡ unlinked store.old head p) }
    ensures unchanged { OnFalse result (store.new ≡ store.old) }
{
    if !unlink(store, head, p, PACKET_LINK) {
        return false;
    }
    store.set(p, NO_QUEUE);
    true
}
