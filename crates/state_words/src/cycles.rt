// Tasks that wait for one another.
use crate::lists::{OutPacket, SeenTask};
use crate::scenes::Scene;
use kernel_lists::FIRST_GUEST;
use run_names::{Party, push_party};
use std::alloc::AllocError;
use tool_texts::Said::Bytes;
use tool_texts::push_sentence;

/// More steps than a search among the tasks of a chain has: it goes to each once, and back.
const MOST_TURNS: u32 = 1000;

impl Scene<'_> {
    /// Whether a task is a guest that waits and has got no packet.
    pub fn waits_alone(&self, task: &SeenTask) -> bool {
        task.id >= FIRST_GUEST && task.waits() && !self.lists.has_queued(Party::Task(task.id))
    }

    // Whether somebody is a guest that waits so.
    fn is_alone(&self, party: Party) -> bool {
        match party {
            Party::Task(id) => match self.lists.task(id) {
                Some(task) => self.waits_alone(task),
                None => false,
            },
            _ => false,
        }
    }

    // Whether a task waits so, and each packet of it is with a task that waits so too: none is on a queue, at a device, or with a task that can
    // go on.
    fn is_shut(&self, task: &SeenTask) -> bool {
        let party = Party::Task(task.id);
        self.waits_alone(task)
            && self.lists.out.as_slice().iter().all(|packet| {
                packet.from != party || !packet.is_queued && self.is_alone(packet.to)
            })
    }

    // Whether a task took a packet of another one, and has it still.
    fn has_packet_of(&self, id: u32, other: u32) -> bool {
        let packets = self.lists.out.as_slice();
        packets.iter().any(|packet| is_kept(*packet, id, other))
    }

    // The first task of the chain that is shut and has a packet of this one, and that is the goal or was not met yet.
    fn next_in_way(&self, id: u32, goal: u32, met: &[u32]) -> Option<u32> {
        for task in self.lists.tasks.as_slice() {
            let is_new = task.id == goal || !met.contains(&task.id);
            if is_new && task.id != id && self.is_shut(task) && self.has_packet_of(task.id, id) {
                return Some(task.id);
            }
        }
        None
    }

    // A way from a task back to it, by those that have its packet, those that have theirs, and so on; nothing where there is none.
    fn cycle_of(&self, id: u32) -> Result<Vec<u32>, AllocError> {
        let mut met = Vec::new(self.alloc);
        let mut way = Vec::new(self.alloc);
        met.push(id)?;
        way.push(id)?;
        for _ in 0..MOST_TURNS {
            let Some(last) = way.as_slice().last().copied() else {
                return Ok(way);
            };
            match self.next_in_way(last, id, met.as_slice()) {
                Some(next) if next == id => return Ok(way),
                Some(next) => {
                    met.push(next)?;
                    way.push(next)?;
                }
                None => {
                    way.pop();
                }
            }
        }
        way.clear();
        Ok(way)
    }

    /// Adds each cycle of tasks that wait for one another, once.
    pub fn push_cycles(&self, text: &mut Vec<u8>) -> Result<(), AllocError> {
        let mut told = Vec::new(self.alloc);
        for task in self.lists.tasks.as_slice() {
            if told.as_slice().contains(&task.id) || !self.is_shut(task) {
                continue;
            }
            let mut way = self.cycle_of(task.id)?;
            self.push_cycle(text, way.as_slice())?;
            told.append(&mut way)?;
        }
        Ok(())
    }

    // Adds a cycle, which begins with one of its tasks, if there is one.
    fn push_cycle(&self, text: &mut Vec<u8>, way: &[u32]) -> Result<(), AllocError> {
        let Some(first) = way.first() else {
            return Ok(());
        };
        let mut before: &[u8] = b"a cycle of waiting: ";
        for id in way {
            push_sentence(text, &[Bytes(before)])?;
            self.push_name(text, Party::Task(*id))?;
            before = b" -> ";
        }
        push_sentence(text, &[Bytes(before)])?;
        push_party(text, Party::Task(*first))?;
        push_sentence(
            text,
            &[Bytes(b"; each waits for the next one, which has its packet")],
        )?;
        if self.plain.stuck.is_empty() {
            push_sentence(
                text,
                &[Bytes(b"; only a packet that another task sends can end it")],
            )?;
        }
        push_sentence(text, &[Bytes(b"\n")])
    }
}

// Whether a packet is with a task that took it from another one.
fn is_kept(packet: OutPacket, id: u32, other: u32) -> bool {
    packet.from == Party::Task(other) && packet.to == Party::Task(id) && !packet.is_queued
}
