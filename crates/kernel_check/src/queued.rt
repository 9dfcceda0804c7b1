// Whether a packet is on a queue.
ghost use Rattle.std.specs.Prelude.{◌≡◌, ◌==◌};
ghost use Rattle.std.specs.List.{flat_map, list_any};
ghost use Rattle.kernel_lists.specs.PacketQueue.Queue.{HasQueue, queue_at};
ghost use Rattle.kernel_model.specs.KernelRecord.Lists.{is_queued};
ghost use Rattle.kernel_model.specs.KernelRecord.Recovered.{lists_in};
ghost use Rattle.kernel_check.specs.ListPasses.ClaimedStore.{IsClaimed};

use crate::list_passes::has_residents;
use kernel_lists::{RootField, TcbField, packets, tasks};
use kernel_model::numbers::PENDING_HEAD;
use word_store::Store;

/// Whether the packet at p is on one of the queues. It looks at all packets.
pub(crate) fn is_queued(store: &Store, p: u32) -> bool
    requires { IsClaimed store.now }
    ensures { result ≡ is_queued p (lists_in store.now) }
{
    if is_work(store, p) {
        return true;
    }
    if has_packet(store, RootField::ClockQueue.address(), p) {
        return true;
    }
    if has_packet(store, RootField::KeyQueue.address(), p) {
        return true;
    }
    if has_packet(store, RootField::OutputQueue.address(), p) {
        return true;
    }
    has_residents(store) && has_packet(store, PENDING_HEAD, p)
}

// Whether it is on the work queue of a task.
fn is_work(store: &Store, p: u32) -> bool
    requires { IsClaimed store.now }
    ensures { result ≡
        list_any (λ q. q.address == p) (flat_map (λ t. t.queue) (lists_in store.now).tasks) }
{
    for t in tasks(store) {
        if has_packet(store, store.address_of(t, TcbField::Queue.index()), p) {
            return true;
        }
    }
    false
}

// Whether it is on the queue at the head.
fn has_packet(store: &Store, head: u32, p: u32) -> bool
    requires { HasQueue store.now head }
    ensures { result ≡ list_any (λ q. q == p) (queue_at store.now head) }
{
    for q in packets(store, head) {
        if q == p {
            return true;
        }
    }
    false
}
