// The queues, in words.
use crate::queues::QueuedPacket;
use crate::scenes::Scene;
use run_names::{Party, push_party};
use std::alloc::AllocError;
use tool_texts::Said::{Bytes, Number};
use tool_texts::push_sentence;

impl Scene<'_> {
    /// Adds the queues that have packets, each in a line: those of the devices, of the tasks, and the console's reads that wait for a line.
    pub fn push_queues(&self, text: &mut Vec<u8>) -> Result<(), AllocError> {
        push_sentence(text, &[Bytes(b"queues\n")])?;
        if self.lists.queued.is_empty() {
            return push_sentence(text, &[Bytes(b"  no packet is on a queue\n")]);
        }
        self.push_queue(text, Party::Clock)?;
        self.push_queue(text, Party::Keyboard)?;
        self.push_queue(text, Party::Output)?;
        for task in self.lists.tasks.as_slice() {
            self.push_queue(text, Party::Task(task.id))?;
        }
        self.push_queue(text, Party::ConsoleReads)
    }

    // Adds the queue of somebody, if it has packets.
    fn push_queue(&self, text: &mut Vec<u8>, place: Party) -> Result<(), AllocError> {
        if !self.lists.has_queued(place) {
            return Ok(());
        }
        push_sentence(text, &[Bytes(b"  ")])?;
        push_party(text, place)?;
        let mut before: &[u8] = b": ";
        for packet in self.lists.queued.as_slice() {
            if packet.place == place {
                push_sentence(text, &[Bytes(before)])?;
                push_queued(text, *packet)?;
                before = b" -> ";
            }
        }
        push_sentence(text, &[Bytes(b"\n")])
    }
}

// Adds a packet on a queue: who has sent it, and its type, or the tick at which it is due at the clock.
fn push_queued(text: &mut Vec<u8>, packet: QueuedPacket) -> Result<(), AllocError> {
    push_sender(text, packet)?;
    if packet.place == Party::Clock {
        return push_sentence(
            text,
            &[Bytes(b", due at tick "), Number(u64::from(packet.due))],
        );
    }
    push_sentence(text, &[Bytes(b", type "), Number(u64::from(packet.kind))])
}

/// Adds the address of a packet on a queue, and who has sent it.
pub fn push_sender(text: &mut Vec<u8>, packet: QueuedPacket) -> Result<(), AllocError> {
    push_sentence(text, &[Number(u64::from(packet.at)), Bytes(b" of ")])?;
    push_party(text, packet.from)
}
