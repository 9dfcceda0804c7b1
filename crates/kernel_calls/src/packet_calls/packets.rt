// A packet's words, and the queues to which it is sent.
ghost use Rattle.std.specs.Prelude.{◌≡◌, slice_set, ◌+◌};
ghost use Rattle.kernel_lists.specs.PacketQueue.Queue.{CanQueue, HasQueue};
ghost use Rattle.kernel_calls.specs.PacketCalls.QueueWords.{due_in, head_of, enqueued, sent_words, with_results};

use crate::packet_calls::queues::{Queue, enqueue};
use kernel_lists::{RootField, root};
use kernel_model::numbers::{FIRST, RES1, RES2, SENDER};
use word_store::{Store, set_word_at, word_at};

/// The word in which a packet to the clock has the ticks that it is to wait.
const DELAY: u32 = FIRST;

/// Sends the packet to the queue.
pub fn send(store: &mut Store, queue: Queue, p: u32, sender: u32)
    requires queue { HasQueue (slice_set store.old (p + 1) sender) (head_of queue) }
    requires packet { CanQueue (slice_set store.old (p + 1) sender) (head_of queue) p }
    ensures { store.new ≡ sent_words store.old queue p sender }
{
    let due = due_tick(store, p);
    set_word_at(store, p, SENDER, sender);
    enqueue(store, queue, p, due);
}

/// Returns the packet with these results to the queue.
pub fn give_back(store: &mut Store, queue: Queue, p: u32, sender: u32, res1: u32, res2: u32)
    requires queue { HasQueue (with_results store.old p sender res1 res2) (head_of queue) }
    requires packet { CanQueue (with_results store.old p sender res1 res2) (head_of queue) p }
    ensures { store.new ≡ enqueued (with_results store.old p sender res1 res2) queue p 0 }
{
    set_word_at(store, p, SENDER, sender);
    set_word_at(store, p, RES1, res1);
    set_word_at(store, p, RES2, res2);
    enqueue(store, queue, p, 0);
}

// The tick at which the packet is due at the clock, or the last tick that there is.
fn due_tick(store: &Store, p: u32) -> u32
    ensures { result ≡ due_in store.now p }
{
    root(store, RootField::Tick).saturating_add(word_at(store, p, DELAY))
}
