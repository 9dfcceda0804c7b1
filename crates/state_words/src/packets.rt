// The packets that a task has sent, and those that it has.
use crate::lists::{OutPacket, SeenTask};
use crate::scenes::Scene;
use kernel_lists::{DUE, FIRST_GUEST};
use run_names::Party;
use std::alloc::AllocError;
use tool_texts::Said::{Bytes, Number};
use tool_texts::push_sentence;
use word_store::word_at;

impl Scene<'_> {
    /// Adds where the packets are that a task has sent and not got back, and why its last send was refused, if it was.
    pub fn push_sent(&self, text: &mut Vec<u8>, task: &SeenTask) -> Result<(), AllocError> {
        let mut has_none = true;
        for packet in self.lists.out.as_slice() {
            if packet.from == Party::Task(task.id) {
                self.push_sent_packet(text, *packet)?;
                has_none = false;
            }
        }
        if has_none {
            push_sentence(
                text,
                &[Bytes(
                    b"    no packet of it is anywhere: it goes on only if another task sends it one\n",
                )],
            )?;
        }
        self.push_refused(text, task)
    }

    // Adds where a packet of a task is.
    fn push_sent_packet(&self, text: &mut Vec<u8>, packet: OutPacket) -> Result<(), AllocError> {
        push_sentence(
            text,
            &[Bytes(b"    its packet "), Number(u64::from(packet.at))],
        )?;
        if self.is_read(packet) {
            return push_sentence(text, &[Bytes(b" waits for a line at the console\n")]);
        }
        push_sentence(text, &[Bytes(b" is ")])?;
        self.push_place_of(text, packet)?;
        push_sentence(text, &[Bytes(b"\n")])
    }

    // Whether a packet is one of the console's reads that wait for a line.
    fn is_read(&self, packet: OutPacket) -> bool {
        let queued = self.lists.queued.as_slice();
        queued
            .iter()
            .any(|p| p.at == packet.at && p.place == Party::ConsoleReads)
    }

    // Adds where a packet is.
    fn push_place_of(&self, text: &mut Vec<u8>, packet: OutPacket) -> Result<(), AllocError> {
        if packet.to == packet.from {
            return push_sentence(text, &[Bytes(b"its own")]);
        }
        match packet.to {
            Party::Clock => push_sentence(
                text,
                &[
                    Bytes(b"at the clock, due at tick "),
                    Number(u64::from(word_at(self.view.store, packet.at, DUE))),
                ],
            ),
            Party::Keyboard => self.push_key(text),
            _ if packet.is_queued => {
                push_sentence(text, &[Bytes(b"on the queue of ")])?;
                self.push_name(text, packet.to)
            }
            _ => self.push_holder(text, packet),
        }
    }

    // Adds when the next key comes.
    fn push_key(&self, text: &mut Vec<u8>) -> Result<(), AllocError> {
        push_sentence(text, &[Bytes(b"at the keyboard; ")])?;
        match self.next_key() {
            Some(step) => push_sentence(
                text,
                &[Bytes(b"the next key comes at step "), Number(step)],
            ),
            None => push_sentence(text, &[Bytes(b"no key is to come")]),
        }
    }

    // The step at which the next key comes in: at most one comes in at a step, and none before those before it.
    fn next_key(&self) -> Option<u64> {
        let mut last = 0u64;
        for (step, _) in self.view.session.keys.as_slice() {
            last = u64::from(*step).max(last.saturating_add(1));
            if last > self.view.steps {
                return Some(last);
            }
        }
        None
    }

    // Adds who took a packet and has it still.
    fn push_holder(&self, text: &mut Vec<u8>, packet: OutPacket) -> Result<(), AllocError> {
        push_sentence(text, &[Bytes(b"with ")])?;
        self.push_name(text, packet.to)?;
        push_sentence(text, &[Bytes(b", which took it")])?;
        if let Some(take) = self.trails.take(packet.at) {
            if take.by == packet.to {
                push_sentence(text, &[Bytes(b" in step "), Number(take.step)])?;
            }
        }
        push_sentence(text, &[Bytes(b" and has not sent it back")])
    }

    // Adds why the last send of a task was refused, if it was.
    fn push_refused(&self, text: &mut Vec<u8>, task: &SeenTask) -> Result<(), AllocError> {
        let trail = self.trails.trail(task.id);
        let Some(refusal) = trail.and_then(|trail| trail.refusal.as_ref()) else {
            return Ok(());
        };
        push_sentence(
            text,
            &[
                Bytes(b"    its last send, "),
                Bytes(refusal.call.as_slice()),
                Bytes(b", in step "),
                Number(refusal.step),
                Bytes(b", was refused with "),
                Bytes(refusal.why.as_slice()),
                Bytes(b"\n"),
            ],
        )
    }

    /// Adds the packets that a guest took from others and has still.
    pub fn push_kept(&self, text: &mut Vec<u8>, task: &SeenTask) -> Result<(), AllocError> {
        if task.id < FIRST_GUEST {
            return Ok(());
        }
        for packet in self.lists.out.as_slice() {
            if packet.to == Party::Task(task.id) && !packet.is_queued {
                push_sentence(
                    text,
                    &[
                        Bytes(b"    it has packet "),
                        Number(u64::from(packet.at)),
                        Bytes(b" of "),
                    ],
                )?;
                self.push_name(text, packet.from)?;
                push_sentence(text, &[Bytes(b"\n")])?;
            }
        }
        Ok(())
    }
}
