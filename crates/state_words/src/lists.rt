// The lists of a kernel, as they are in a store.
use crate::queues::{QueuedPacket, queued_packets};
use kernel_lists::{FIRST_GUEST, TcbField, field};
use kernel_model::field_of_state;
use kernel_model::numbers::{FAULT_WORD, WAITS};
use log_words::tasks::KnownTasks;
use run_names::{
    KnownProgram, NamedHunk, NamedModule, PacketsOut, Party, hunks_of, modules_of, push_programs,
    task_blocks,
};
use session_text::Session;
use std::alloc::{AllocError, Global};
use tool_texts::Said::Bytes;
use tool_texts::push_sentence;
use word_store::{Store, word_at};

/// The most coroutines of a task that are looked at.
const MOST_COROUTINES: u32 = 100_000;

/// The word of a coroutine that has the next one of its task, or 0.
const NEXT_COROUTINE: u32 = 2;

/// A task of the chain.
#[derive(Drop)]
pub struct SeenTask {
    /// Its number.
    pub id: u32,
    /// The address of its block.
    pub block: u32,
    /// Its state.
    pub state: u32,
    /// The names of its programs, with `+` between them; nothing where none is known.
    pub program: Vec<u8>,
}

/// A coroutine.
#[derive(Clone, Copy)]
pub struct SeenCoroutine {
    /// The address of its first word.
    pub at: u32,
    /// The number of its task.
    pub task: u32,
}

/// A packet that has not come back.
#[derive(Clone, Copy)]
pub struct OutPacket {
    /// Its address.
    pub at: u32,
    /// Who has it now, or has it to come.
    pub to: Party,
    /// Who sent it.
    pub from: Party,
    /// Whether it is on a queue.
    pub is_queued: bool,
}

/// The lists of a kernel. A bare machine has none.
#[derive(Drop)]
pub struct SeenLists<'a> {
    /// The tasks, in the order of the chain.
    pub tasks: Vec<SeenTask>,
    /// The packets on queues.
    pub queued: Vec<QueuedPacket>,
    /// The packets that have not come back, in the order of their addresses.
    pub out: Vec<OutPacket>,
    /// The coroutines: those of each task, the newest first, in the order of the tasks.
    pub coroutines: Vec<SeenCoroutine>,
    /// The modules, the newest first.
    pub modules: Vec<NamedModule<'a>>,
    /// The hunks of the modules.
    pub hunks: Vec<NamedHunk<'a>>,
}

impl SeenTask {
    /// Whether it waits.
    pub fn waits(&self) -> bool {
        field_of_state(self.state) == WAITS
    }

    /// Whether it has met a fault, by the words of its block.
    pub fn has_fault(&self, store: &Store) -> bool {
        field(store, self.block, FAULT_WORD) != 0
    }
}

impl<'a> SeenLists<'a> {
    /// Lists that have nothing.
    pub fn new(alloc: Global) -> SeenLists<'a> {
        SeenLists {
            tasks: Vec::new(alloc),
            queued: Vec::new(alloc),
            out: Vec::new(alloc),
            coroutines: Vec::new(alloc),
            modules: Vec::new(alloc),
            hunks: Vec::new(alloc),
        }
    }

    /// The lists in a store, with the names of these programs. The packets that have not come back are given.
    pub fn of_store(
        alloc: Global,
        session: &Session,
        programs: &'a [KnownProgram],
        store: &Store,
        out: &PacketsOut,
    ) -> Result<SeenLists<'a>, AllocError> {
        let blocks = task_blocks(alloc, store)?;
        let blocks = blocks.as_slice();
        let modules = modules_of(alloc, programs, store)?;
        let queued = queued_packets(alloc, store, blocks)?;
        Ok(SeenLists {
            tasks: tasks_of(alloc, session, store, modules.as_slice(), blocks)?,
            out: packets_out(alloc, queued.as_slice(), out)?,
            queued,
            coroutines: coroutines_of(alloc, store, blocks)?,
            hunks: hunks_of(alloc, store, modules.as_slice())?,
            modules,
        })
    }

    /// A task by its number; `None` where the chain has none with it.
    pub fn task(&self, id: u32) -> Option<&SeenTask> {
        self.tasks.as_slice().iter().find(|task| task.id == id)
    }

    /// The number of the task whose coroutine is at an address; `None` where none is there.
    pub fn task_of_coroutine(&self, at: u32) -> Option<u32> {
        let found = self.coroutines.as_slice().iter().find(|c| c.at == at)?;
        Some(found.task)
    }

    /// Whether a packet is on somebody's queue.
    pub fn has_queued(&self, place: Party) -> bool {
        self.queued.as_slice().iter().any(|p| p.place == place)
    }
}

// The tasks with these blocks. A session names its residents, and the modules name the guests.
fn tasks_of(
    alloc: Global,
    session: &Session,
    store: &Store,
    modules: &[NamedModule],
    blocks: &[u32],
) -> Result<Vec<SeenTask>, AllocError> {
    let known = KnownTasks::new(alloc, session)?;
    let mut tasks = Vec::new(alloc);
    for block in blocks {
        let id = field(store, *block, TcbField::Id);
        let mut program = Vec::new(alloc);
        if id >= FIRST_GUEST {
            push_programs(&mut program, store, modules, *block)?;
        } else if let Some(task) = known.task(id) {
            push_sentence(&mut program, &[Bytes(task.program.as_slice())])?;
        }
        tasks.push(SeenTask {
            id,
            block: *block,
            state: field(store, *block, TcbField::State),
            program,
        })?;
    }
    Ok(tasks)
}

// The packets that have not come back, each with whether it is among those that are on queues.
fn packets_out(
    alloc: Global,
    queued: &[QueuedPacket],
    out: &PacketsOut,
) -> Result<Vec<OutPacket>, AllocError> {
    let mut packets = Vec::new(alloc);
    for (at, way) in out.ways() {
        packets.push(OutPacket {
            at: *at,
            to: way.to,
            from: way.from,
            is_queued: queued.iter().any(|packet| packet.at == *at),
        })?;
    }
    Ok(packets)
}

// The coroutines of the tasks with these blocks.
fn coroutines_of(
    alloc: Global,
    store: &Store,
    blocks: &[u32],
) -> Result<Vec<SeenCoroutine>, AllocError> {
    let mut coroutines = Vec::new(alloc);
    for block in blocks {
        add_coroutines(&mut coroutines, store, *block)?;
    }
    Ok(coroutines)
}

// Adds the coroutines of the task whose block is at t.
fn add_coroutines(
    coroutines: &mut Vec<SeenCoroutine>,
    store: &Store,
    t: u32,
) -> Result<(), AllocError> {
    let task = field(store, t, TcbField::Id);
    let mut at = field(store, t, TcbField::FirstCo);
    for _ in 0..MOST_COROUTINES {
        if at == 0 {
            return Ok(());
        }
        coroutines.push(SeenCoroutine { at, task })?;
        at = word_at(store, at, NEXT_COROUTINE);
    }
    Ok(())
}
