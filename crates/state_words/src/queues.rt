// The packets that are on queues.
use kernel_lists::{DUE, RootField, TcbField, field, root};
use kernel_model::numbers::{KIND, PENDING_HEAD, SENDER};
use run_names::Party;
use std::alloc::{AllocError, Global};
use word_store::{Store, signed, word, word_at};

/// A packet on a queue.
#[derive(Clone, Copy)]
pub struct QueuedPacket {
    /// Its address.
    pub at: u32,
    /// Whose queue it is.
    pub place: Party,
    /// Who has sent it.
    pub from: Party,
    /// Its type.
    pub kind: u32,
    /// The tick at which it is due, where it is at the clock.
    pub due: u32,
}

/// The packets on the queues of the devices, of the console's reads that wait for a line, and of the tasks with these blocks, each queue in its
/// order.
pub fn queued_packets(
    alloc: Global,
    store: &Store,
    blocks: &[u32],
) -> Result<Vec<QueuedPacket>, AllocError> {
    let mut packets = Vec::new(alloc);
    for block in blocks {
        let place = Party::Task(field(store, *block, TcbField::Id));
        let first = field(store, *block, TcbField::Queue);
        add_queue(&mut packets, store, place, first)?;
    }
    let clock = root(store, RootField::ClockQueue);
    let keyboard = root(store, RootField::KeyQueue);
    let output = root(store, RootField::OutputQueue);
    add_queue(&mut packets, store, Party::Clock, clock)?;
    add_queue(&mut packets, store, Party::Keyboard, keyboard)?;
    add_queue(&mut packets, store, Party::Output, output)?;
    if root(store, RootField::Residents) != 0 {
        let reads = word(store, PENDING_HEAD);
        add_queue(&mut packets, store, Party::ConsoleReads, reads)?;
    }
    Ok(packets)
}

// Adds the packets of somebody's queue, from the first on. There are fewer than the store has words.
fn add_queue(
    packets: &mut Vec<QueuedPacket>,
    store: &Store,
    place: Party,
    first: u32,
) -> Result<(), AllocError> {
    let mut at = first;
    for _ in 0..store.size() {
        if at == 0 {
            return Ok(());
        }
        packets.push(packet_at(store, place, at))?;
        at = word(store, at);
    }
    Ok(())
}

// The packet at an address.
fn packet_at(store: &Store, place: Party, at: u32) -> QueuedPacket {
    QueuedPacket {
        at,
        place,
        from: Party::of_number(signed(word_at(store, at, SENDER))),
        kind: word_at(store, at, KIND),
        due: word_at(store, at, DUE),
    }
}
