// The queues of packets: a packet comes into one, and goes out.
ghost use Rattle.std.specs.Prelude.{◌≡◌, slice_index, true};
ghost use Rattle.kernel_lists.specs.LinkedList.Places.{has};
ghost use Rattle.kernel_lists.specs.PacketQueue.Queue.{CanQueue, HasQueue, queue_at};
ghost use Rattle.kernel_calls.specs.PacketCalls.QueueWords.{head_of, enqueued, unqueued, state_left, state_with_packets};

use kernel_lists::{RootField, TcbField, append, append_due, field, packets, remove, set_field};
use kernel_model::numbers::PENDING_HEAD;
use word_store::{Store, word};

/// A queue of packets.
#[derive(Clone, Copy)]
pub enum Queue {
    /// The work queue of the task whose block is at the address.
    Work(u32),
    /// The clock's.
    Clock,
    /// The keyboard's.
    Keyboard,
    /// The output device's.
    Output,
    /// The console's reads that wait for a line.
    Pending,
}

/// The word that leads to the first packet of the queue.
pub fn head(store: &Store, queue: Queue) -> u32
    requires { HasQueue store.now (head_of queue) }
    ensures { result ≡ head_of queue }
{
    match queue {
        Queue::Work(t) => store.address_of(t, TcbField::Queue.index()),
        Queue::Clock => RootField::ClockQueue.address(),
        Queue::Keyboard => RootField::KeyQueue.address(),
        Queue::Output => RootField::OutputQueue.address(),
        Queue::Pending => PENDING_HEAD,
    }
}

/// The address of the first packet of the queue, or 0 where it has none.
pub fn first(store: &Store, queue: Queue) -> u32
    requires { HasQueue store.now (head_of queue) }
    ensures { result ≡ slice_index store.now (head_of queue) }
{
    word(store, head(store, queue))
}

/// Whether the packet is on the queue.
pub fn has_packet(store: &Store, queue: Queue, p: u32) -> bool
    requires { HasQueue store.now (head_of queue) }
    ensures { result ≡ has p (queue_at store.now (head_of queue)) }
{
    is_linked(store, head(store, queue), p)
}

// Whether the packet is on the queue at the head.
fn is_linked(store: &Store, head: u32, p: u32) -> bool
    requires { HasQueue store.now head }
    ensures { result ≡ has p (queue_at store.now head) }
{
    for q in packets(store, head) {
        if p == q {
            return true;
        }
    }
    false
}

/// Puts the packet into the queue: at the clock by its due tick, and else at the end.
pub fn enqueue(store: &mut Store, queue: Queue, p: u32, due: u32)
    requires queue { HasQueue store.old (head_of queue) }
    requires packet { CanQueue store.old (head_of queue) p }
    ensures { store.new ≡ enqueued store.old queue p due }
{
    let head = head(store, queue);
    match queue {
        Queue::Work(t) => enqueue_work(store, t, head, p),
        Queue::Clock => append_due(store, head, p, due),
        Queue::Keyboard | Queue::Output | Queue::Pending => append(store, head, p),
    }
}

// The packet comes to the end of the work queue at the head, and the state of its task says that packets wait.
fn enqueue_work(store: &mut Store, t: u32, head: u32, p: u32)
    requires queue { HasQueue store.old head }
    requires packet { CanQueue store.old head p }
    requires head { head ≡ head_of (Queue.Work t) }
    ensures { store.new ≡ enqueued store.old (Queue.Work t) p 0 }
{
    let state = state_with_packets(field(store, t, TcbField::State));
    append(store, head, p);
    set_field(store, t, TcbField::State, state);
}

// A state is odd where packets wait.
fn state_with_packets(state: u32) -> u32
    ensures { result ≡ state_with_packets state }
{
    if state % 2 == 0 { state + 1 } else { state }
}

/// Takes the packet out of the queue.
pub fn unqueue(store: &mut Store, queue: Queue, p: u32)
    requires queue { HasQueue store.old (head_of queue) }
    requires packet { has p (queue_at store.old (head_of queue)) ≡ true }
    ensures { store.new ≡ unqueued store.old queue p }
{
    let head = head(store, queue);
    match queue {
        Queue::Work(t) => unqueue_work(store, t, head, p),
        Queue::Clock | Queue::Keyboard | Queue::Output | Queue::Pending => {
            remove(store, head, p);
        }
    }
}

// The packet goes out of the work queue at the head, and the state of its task says whether more of them wait.
fn unqueue_work(store: &mut Store, t: u32, head: u32, p: u32)
    requires queue { HasQueue store.old head }
    requires packet { has p (queue_at store.old head) ≡ true }
    requires head { head ≡ head_of (Queue.Work t) }
    ensures { store.new ≡ unqueued store.old (Queue.Work t) p }
{
    let state = field(store, t, TcbField::State);
    remove(store, head, p);
    let next = field(store, t, TcbField::Queue);
    set_field(store, t, TcbField::State, state_left(state, next));
}

// The state once a packet went out, where the head holds the next one, or 0.
fn state_left(state: u32, next: u32) -> u32
    ensures { result ≡ state_left state next }
{
    if next == 0 { state - state % 2 } else { state }
}
