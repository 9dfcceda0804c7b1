// Queues of packets that are due at a tick.
ghost use Rattle.std.specs.Prelude.{◌≡◌};
ghost use Rattle.kernel_lists.specs.LinkedList.Places.{insert_after};
ghost use Rattle.kernel_lists.specs.PacketQueue.Queue.{CanQueue, HasQueue, queue_at};
ghost use Rattle.kernel_lists.specs.PacketQueue.Due.{is_due, with_due};

use crate::linked_list::link_in;
use crate::packet_queue::due_ticks::set_due;
use crate::packet_queue::places::last_due_link;
use crate::packet_queue::walk::PACKET_LINK;
use word_store::Store;

/// Puts the packet directly after the last one in the queue that is due no later, and at the front where there is none. So
/// where the due ticks never fall along the queue, it is after all that are due no later, and before the others.
pub fn append_due(store: &mut Store, head: u32, p: u32, due: u32)
    requires queue { HasQueue store.old head }
    requires packet { CanQueue store.old head p }
    ensures queue { queue_at store.new head
        ≡ insert_after (is_due store.old due) p (queue_at store.old head) }
    ensures valid { HasQueue store.new head }
    ensures words { store.new ≡ with_due store.old head p due }
{
    let cell = last_due_link(store, head, due);
    link_in(store, cell, p, PACKET_LINK);
    set_due(store, p, due);
}
