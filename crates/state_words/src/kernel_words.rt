// What a word of the store is, in words.
use crate::plain_states::SeenBlock;
use crate::queues::QueuedPacket;
use crate::scenes::Scene;
use crate::word_names::{packet_word_name, root_word_name, task_word_name};
use kernel_lists::{FIRST_GUEST, TABLE, head_words};
use kernel_model::numbers::{COROUTINE_WORDS, PACKET_WORDS, RESIDENT_WORDS};
use run_names::Party;
use std::alloc::AllocError;
use tool_texts::Said::{Bytes, Number};
use tool_texts::push_sentence;
use word_store::word_at;

/// The first word of the root node.
const ROOT: u32 = 100;

/// One more than the highest number that the task table has room for.
const TASKS: u32 = 64;

/// The words of a module before the lengths of its hunks.
const MODULE_HEAD: u64 = 2;

/// A word of something that has several, by its number there.
#[derive(Clone, Copy)]
enum KernelWord<'s> {
    /// The last of the store.
    End,
    /// One of the root node.
    Root(u32),
    /// One of the task table: the entry of this task, or its first one.
    Table(u32),
    /// One of a packet on a queue.
    Packet(u32, QueuedPacket),
    /// The one with the size of a block.
    Size(SeenBlock),
    /// One of the block of this task.
    Task(u32, u32),
    /// One of a module with this name.
    Module(u32, &'s [u8]),
    /// One of a coroutine, at this address, of this task.
    Coroutine(u32, u32, u32),
    /// One of the residents.
    Residents,
}

impl Scene<'_> {
    /// Adds what a word of the kernel is.
    pub fn push_kernel_word(&self, text: &mut Vec<u8>, at: u32) -> Result<(), AllocError> {
        match self.kernel_word(at) {
            KernelWord::End => push_sentence(text, &[Bytes(b"the end word of the store")]),
            KernelWord::Root(i) => push_root_word(text, at, i),
            KernelWord::Table(0) => {
                push_sentence(text, &[Bytes(b"the first word of the task table")])
            }
            KernelWord::Table(id) => push_sentence(
                text,
                &[
                    Bytes(b"the entry of task "),
                    Number(u64::from(id)),
                    Bytes(b" in the task table"),
                ],
            ),
            KernelWord::Packet(i, packet) => self.push_packet_word(text, i, packet),
            KernelWord::Size(block) => {
                push_sentence(text, &[Bytes(b"the size word of ")])?;
                self.push_block(text, block)
            }
            KernelWord::Task(i, id) => self.push_task_word(text, i, id),
            KernelWord::Module(i, name) => {
                push_word_of(text, i)?;
                push_sentence(text, &[Bytes(b"the module "), Bytes(name)])
            }
            KernelWord::Coroutine(i, coroutine, id) => {
                push_word_of(text, i)?;
                push_sentence(
                    text,
                    &[
                        Bytes(b"coroutine "),
                        Number(u64::from(coroutine)),
                        Bytes(b" of "),
                    ],
                )?;
                self.push_name(text, Party::Task(id))
            }
            KernelWord::Residents => push_sentence(text, &[Bytes(b"a word of the residents")]),
        }
    }

    // What a word of the kernel is. Those of the residents are left where it is nothing else.
    fn kernel_word(&self, at: u32) -> KernelWord<'_> {
        if u64::from(at) + 2 == u64::from(self.view.session.store) {
            return KernelWord::End;
        }
        if let Some(i) = offset_in(ROOT, TABLE - ROOT, at) {
            return KernelWord::Root(i);
        }
        if let Some(id) = offset_in(TABLE, TASKS, at) {
            return KernelWord::Table(id);
        }
        self.packet_word(at)
            .or_else(|| self.size_word(at))
            .or_else(|| self.task_word(at))
            .or_else(|| self.module_word(at))
            .or_else(|| self.coroutine_word(at))
            .unwrap_or(KernelWord::Residents)
    }

    fn packet_word(&self, at: u32) -> Option<KernelWord<'_>> {
        for packet in self.lists.queued.as_slice() {
            if let Some(i) = offset_in(packet.at, PACKET_WORDS, at) {
                return Some(KernelWord::Packet(i, *packet));
            }
        }
        None
    }

    fn size_word(&self, at: u32) -> Option<KernelWord<'_>> {
        for block in self.plain.blocks.as_slice() {
            if block.start == at {
                return Some(KernelWord::Size(*block));
            }
        }
        None
    }

    fn task_word(&self, at: u32) -> Option<KernelWord<'_>> {
        for task in self.lists.tasks.as_slice() {
            let words = if task.id >= FIRST_GUEST {
                head_words(self.view.store)
            } else {
                RESIDENT_WORDS
            };
            if let Some(i) = offset_in(task.block, words, at) {
                return Some(KernelWord::Task(i, task.id));
            }
        }
        None
    }

    fn module_word(&self, at: u32) -> Option<KernelWord<'_>> {
        for module in self.lists.modules.as_slice() {
            let hunks = u64::from(word_at(self.view.store, module.at, 1));
            let offset = at.checked_sub(module.at);
            if let Some(i) = offset.filter(|i| u64::from(*i) < hunks + MODULE_HEAD) {
                return Some(KernelWord::Module(i, module.name));
            }
        }
        None
    }

    fn coroutine_word(&self, at: u32) -> Option<KernelWord<'_>> {
        for coroutine in self.lists.coroutines.as_slice() {
            if let Some(i) = offset_in(coroutine.at, COROUTINE_WORDS, at) {
                return Some(KernelWord::Coroutine(i, coroutine.at, coroutine.task));
            }
        }
        None
    }

    // Adds what a word of a packet on a queue is.
    fn push_packet_word(
        &self,
        text: &mut Vec<u8>,
        i: u32,
        packet: QueuedPacket,
    ) -> Result<(), AllocError> {
        push_sentence(
            text,
            &[
                Bytes(packet_word_name(i)),
                Bytes(b" of packet "),
                Number(u64::from(packet.at)),
                Bytes(b", which waits "),
            ],
        )?;
        match packet.place {
            Party::ConsoleReads => push_sentence(text, &[Bytes(b"for a line at the console")]),
            Party::Task(_) => {
                push_sentence(text, &[Bytes(b"on the queue of ")])?;
                self.push_name(text, packet.place)
            }
            Party::Clock | Party::Keyboard | Party::Output => {
                push_sentence(text, &[Bytes(b"at ")])?;
                self.push_name(text, packet.place)
            }
        }
    }

    // Adds what a word of a task block is.
    fn push_task_word(&self, text: &mut Vec<u8>, i: u32, id: u32) -> Result<(), AllocError> {
        push_word_of(text, i)?;
        push_sentence(text, &[Bytes(b"the task block of ")])?;
        self.push_name(text, Party::Task(id))?;
        let name = task_word_name(i);
        push_sentence(
            text,
            &[
                Bytes(b", "),
                Bytes(if name.is_empty() { b"a module" } else { name }),
            ],
        )
    }
}

// Which word of some that begin at an address another one is; `None` where it is none of them.
fn offset_in(first: u32, words: u32, at: u32) -> Option<u32> {
    at.checked_sub(first).filter(|i| *i < words)
}

// Adds a word of the root node.
fn push_root_word(text: &mut Vec<u8>, at: u32, i: u32) -> Result<(), AllocError> {
    push_sentence(
        text,
        &[
            Bytes(b"word "),
            Number(u64::from(at)),
            Bytes(b" of the root node"),
        ],
    )?;
    let name = root_word_name(i);
    if name.is_empty() {
        return Ok(());
    }
    push_sentence(text, &[Bytes(b", "), Bytes(name)])
}

// Adds the number of a word in what it is a word of.
fn push_word_of(text: &mut Vec<u8>, i: u32) -> Result<(), AllocError> {
    push_sentence(
        text,
        &[Bytes(b"word "), Number(u64::from(i)), Bytes(b" of ")],
    )
}
