// A machine at a moment: what is known of it.
ghost use Rattle.std.specs.Prelude.{◌≡◌};
ghost use Rattle.state_words.specs.Windows.{first_seen};

use crate::lists::SeenLists;
use crate::plain_states::{PlainState, read_state};
use crate::programs::{PROGRAM, program_bytes};
use crate::spans::Span;
use crate::trails::Trails;
use kernel_model::{Stop, Use};
use log_words::heads::is_dead;
use run_names::{KnownProgram, PacketsOut, Party, push_comma_place, push_party};
use session_text::Session;
use std::alloc::{AllocError, Global};
use tool_texts::Said::{Bytes, Number};
use tool_texts::push_sentence;
use word_store::{Regs, Store, word};

/// How many of the last steps are looked through where something is to be found.
const MOST_STEPS: u64 = 1_000_000;

/// The same where nothing is, but a frame that was written beyond a stack.
const FEWER_STEPS: u64 = 20_000;

/// A machine at a moment, and its session.
#[derive(Clone, Copy)]
pub struct View<'a> {
    /// What the session is called.
    pub name: &'a [u8],
    /// The session.
    pub session: &'a Session,
    /// Its programs.
    pub programs: &'a [KnownProgram],
    /// Whether the session has more steps than were to be taken.
    pub is_cut: bool,
    /// The steps that were taken.
    pub steps: u64,
    /// Why the machine has stopped, if it has.
    pub stop: Option<Stop>,
    /// Its registers.
    pub regs: Regs,
    /// The number of the task that runs, or ran last; 0 where nobody runs, and on a bare machine.
    pub running: u32,
    /// The words of its store.
    pub store: &'a Store,
    /// The packets that have not come back.
    pub out: &'a PacketsOut,
    /// The text of its state.
    pub text: &'a [u8],
}

/// What is known of a machine at a moment.
#[derive(Drop)]
pub struct Scene<'a> {
    /// The memory.
    pub alloc: Global,
    /// The machine.
    pub view: View<'a>,
    /// What the text of its state says.
    pub plain: PlainState<'a>,
    /// The lists of its kernel.
    pub lists: SeenLists<'a>,
    /// The bytes of a bare machine's program, as they were at first.
    pub program: Vec<u8>,
    /// The first step that is looked at besides, from 1.
    pub first_seen: u64,
    /// What is kept of these steps.
    pub trails: Trails,
}

impl<'a> Scene<'a> {
    /// What a machine shows, before its last steps are looked through.
    pub fn new(alloc: Global, view: View<'a>) -> Result<Scene<'a>, AllocError> {
        let plain = read_state(alloc, view.text)?;
        let lists = lists_of(alloc, view)?;
        let program = program_bytes(alloc, view.session)?;
        let code = code_of(alloc, &plain, program.as_slice())?;
        let trails = Trails::new(alloc, code, stacks_of(alloc, &plain)?)?;
        let mut scene = Scene {
            alloc,
            view,
            plain,
            lists,
            program,
            first_seen: 1,
            trails,
        };
        scene.watch_faulted();
        scene.first_seen = first_seen(view.steps, scene.asks());
        Ok(scene)
    }

    // The tasks that have met a fault are watched.
    fn watch_faulted(&mut self) {
        if let Some(Stop::Fault { task, .. }) = self.view.stop {
            self.trails.watch(task);
        }
        for task in self.lists.tasks.as_slice() {
            if task.has_fault(self.view.store) {
                self.trails.watch(task.id);
            }
        }
    }

    // Whether the lists leave something open: how a task died or met a fault, or who has a packet.
    fn asks(&self) -> bool {
        if self.plain.has_lost || matches!(self.view.stop, Some(Stop::Fault { .. })) {
            return true;
        }
        if self.view.session.bare {
            return self.view.regs.pc == 0;
        }
        let tasks = self.lists.tasks.as_slice();
        tasks.iter().any(|task| is_dead(task.state) || task.has_fault(self.view.store))
    }

    /// Whether the last steps are to be looked through.
    pub fn needs_steps(&self) -> bool {
        self.asks() || self.trails.has_stacks()
    }

    /// The word at an address, or 0 where it is outside the store.
    pub fn word(&self, at: u64) -> u32 {
        match u32::try_from(at) {
            Ok(at) => word(self.view.store, at),
            Err(_) => 0,
        }
    }

    /// Adds who somebody is; a task with its programs.
    pub fn push_name(&self, text: &mut Vec<u8>, party: Party) -> Result<(), AllocError> {
        push_party(text, party)?;
        let Party::Task(id) = party else {
            return Ok(());
        };
        match self.lists.task(id) {
            Some(task) if !task.program.is_empty() => {
                let program = task.program.as_slice();
                push_sentence(text, &[Bytes(b" ("), Bytes(program), Bytes(b")")])
            }
            _ => Ok(()),
        }
    }

    /// Adds a byte address, and where it is.
    pub fn push_place(&self, text: &mut Vec<u8>, byte: u32) -> Result<(), AllocError> {
        push_sentence(text, &[Number(u64::from(byte))])?;
        push_comma_place(text, self.view.store, self.lists.hunks.as_slice(), byte)?;
        Ok(())
    }
}

// The lists of a machine.
fn lists_of<'a>(alloc: Global, view: View<'a>) -> Result<SeenLists<'a>, AllocError> {
    if view.session.bare {
        return Ok(SeenLists::new(alloc));
    }
    SeenLists::of_store(alloc, view.session, view.programs, view.store, view.out)
}

// The bytes that have code: those of the blocks with modules, or of a bare machine's program.
fn code_of(alloc: Global, plain: &PlainState, program: &[u8]) -> Result<Vec<Span>, AllocError> {
    let mut spans = Vec::new(alloc);
    for block in plain.blocks.as_slice() {
        if matches!(block.used, Use::OfModule) {
            spans.push(Span {
                from: u64::from(block.start).saturating_mul(4),
                to: block.end().saturating_mul(4),
            })?;
        }
    }
    if !program.is_empty() {
        spans.push(Span {
            from: u64::from(PROGRAM),
            to: u64::from(PROGRAM).saturating_add(program.len() as u64),
        })?;
    }
    Ok(spans)
}

// The words of the blocks that have stacks.
fn stacks_of(alloc: Global, plain: &PlainState) -> Result<Vec<Span>, AllocError> {
    let mut spans = Vec::new(alloc);
    for block in plain.blocks.as_slice() {
        if block.has_stack() {
            spans.push(Span {
                from: u64::from(block.start),
                to: block.end(),
            })?;
        }
    }
    Ok(spans)
}

// The first of the last steps that are looked through: of 1,000,000 where something is to be found, and else of 20,000.
fn first_seen(steps: u64, asks: bool) -> u64
    ensures { result ≡ first_seen steps asks }
{
    let most = if asks { MOST_STEPS } else { FEWER_STEPS };
    steps.saturating_sub(most - 1).max(1)
}
