// Places in a queue, found by a walk.
ghost use Rattle.std.specs.Prelude.{◌≡◌};
ghost use Rattle.kernel_lists.specs.PacketQueue.Queue as queue;
ghost use Rattle.kernel_lists.specs.PacketQueue.Queue.{HasQueue};
ghost use Rattle.kernel_lists.specs.PacketQueue.Due as due;

use crate::packet_queue::due_ticks::due_of;
use crate::packet_queue::walk::packets;
use word_store::Store;

/// The word that holds the last link.
pub(crate) fn last_link(store: &Store, head: u32) -> u32
    requires { HasQueue store.now head }
    ensures { result ≡ queue.last_link store.now head }
{
    let mut cell = head;
    for p in packets(store, head) {
        cell = p;
    }
    cell
}

/// The word that holds the link of the last packet that is due at that tick or before.
pub(crate) fn last_due_link(store: &Store, head: u32, tick: u32) -> u32
    requires { HasQueue store.now head }
    ensures { result ≡ due.last_due_link store.now head tick }
{
    let mut cell = head;
    for p in packets(store, head) {
        if due_of(store, p) <= tick {
            cell = p;
        }
    }
    cell
}
