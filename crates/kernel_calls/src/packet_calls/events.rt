// The events of packets. Tasks and devices are named by words here, and by signed numbers in the events.
ghost use Rattle.std.specs.Prelude.{◌≡◌};
ghost use Rattle.word_store.specs.Arithmetic.{signed};

use kernel_lists::KernelEvent;
use word_store::signed;

/// A packet came into a queue, from a task or a device.
pub fn accepted(queue: u32, packet: u32, sender: u32) -> KernelEvent
    ensures { result ≡ KernelEvent.Accepted (signed queue) packet (signed sender) }
{
    KernelEvent::Accepted {
        queue: signed(queue),
        packet,
        sender: signed(sender),
    }
}

/// A task took a packet, which has a sender.
pub fn taken(queue: u32, packet: u32, sender: u32) -> KernelEvent
    ensures { result ≡ KernelEvent.Taken (signed queue) packet (signed sender) }
{
    KernelEvent::Taken {
        queue: signed(queue),
        packet,
        sender: signed(sender),
    }
}

/// A packet was taken back out of a queue.
pub fn dequeued(queue: u32, packet: u32) -> KernelEvent
    ensures { result ≡ KernelEvent.Dequeued (signed queue) packet }
{
    KernelEvent::Dequeued {
        queue: signed(queue),
        packet,
    }
}
