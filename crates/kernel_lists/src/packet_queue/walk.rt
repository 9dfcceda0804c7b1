// The walk along a queue.
ghost use Rattle.std.specs.Prelude.{◌≡◌};
ghost use Rattle.kernel_lists.specs.PacketQueue.Queue.{HasQueue, queue_at};

use crate::linked_list::follow;
use crate::packet_queue::packet_list::Packets;
use word_store::Store;

/// Which word of a packet links to the next one.
pub const PACKET_LINK: u32 = 0;

/// The packets of the queue, in order.
pub fn packets(store: &Store, head: u32) -> Packets<'_>
    requires { HasQueue store.now head }
    ensures { result ≡ queue_at store.now head }
{
    Packets {
        nodes: follow(store, head, PACKET_LINK),
    }
}
