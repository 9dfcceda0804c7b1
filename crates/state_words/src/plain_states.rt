// What the text of a state says beside what its store has.
use kernel_model::Use;
use module_text::{after_word, split_line};
use session_text::number_field;
use std::alloc::{AllocError, Global};

/// A block of the store.
#[derive(Clone, Copy)]
pub struct SeenBlock {
    /// The address of its size word.
    pub start: u32,
    /// How many words it has.
    pub size: u32,
    /// What it is used for.
    pub used: Use,
}

/// What the text of a state says. Its lines are lent.
#[derive(Drop)]
pub struct PlainState<'t> {
    /// The registers, as the debugger shows them.
    pub registers: &'t [u8],
    /// The instruction that comes next, or that met a fault, as the debugger lists it; nothing where none is told.
    pub next: &'t [u8],
    /// The line that says of tasks that no step of any task can end that they wait; nothing where none says it.
    pub stuck: &'t [u8],
    /// Whether nobody runs, and nothing can ever come.
    pub is_over: bool,
    /// Whether a task waits of which no packet is on a queue.
    pub has_lost: bool,
    /// The blocks of the store, in rising order.
    pub blocks: Vec<SeenBlock>,
}

/// Which part of the text a line is in.
#[derive(Clone, Copy)]
enum Part {
    /// What comes before the registers.
    Head,
    /// The instruction after the registers, if there is one.
    Next,
    /// The blocks.
    Blocks,
    /// One of the other lists.
    Others,
}

/// What the text of a state says.
pub fn read_state(alloc: Global, text: &[u8]) -> Result<PlainState<'_>, AllocError> {
    let mut state = PlainState {
        registers: &[],
        next: &[],
        stuck: &[],
        is_over: false,
        has_lost: false,
        blocks: Vec::new(alloc),
    };
    let mut part = Part::Head;
    let mut rest = text;
    while let Some((line, others)) = split_line(rest) {
        part = add_line(&mut state, part, line)?;
        rest = others;
    }
    Ok(state)
}

// Adds what a line of a part says; the answer is the part of the next line.
fn add_line<'t>(
    state: &mut PlainState<'t>,
    part: Part,
    line: &'t [u8],
) -> Result<Part, AllocError> {
    if let Some(named) = part_named(line) {
        return Ok(named);
    }
    match part {
        Part::Head => Ok(add_head(state, line)),
        Part::Next => {
            state.next = after_address(line);
            Ok(Part::Next)
        }
        Part::Blocks => {
            if let Some(block) = block_of(line) {
                state.blocks.push(block)?;
            }
            Ok(Part::Blocks)
        }
        Part::Others => {
            if line == b"  no packet of it is on a queue".as_slice() {
                state.has_lost = true;
            }
            Ok(Part::Others)
        }
    }
}

// The part that a line begins.
fn part_named(line: &[u8]) -> Option<Part> {
    if line == b"blocks".as_slice() {
        return Some(Part::Blocks);
    }
    if line == b"tasks".as_slice()
        || line == b"queues".as_slice()
        || line == b"modules".as_slice()
    {
        return Some(Part::Others);
    }
    None
}

// Adds what a line up to the registers says.
fn add_head<'t>(state: &mut PlainState<'t>, line: &'t [u8]) -> Part {
    if let Some(registers) = after_word(b"REGS ", line) {
        state.registers = registers;
        return Part::Next;
    }
    if line == b"nobody runs: nothing can ever come".as_slice() {
        state.is_over = true;
    }
    if is_stuck(line) {
        state.stuck = line;
    }
    Part::Head
}

// Whether a line says that no step of any task can end that some wait.
fn is_stuck(line: &[u8]) -> bool {
    line.starts_with(b"deadlock: no step of any task can end it; ")
        || line.starts_with(b"for ever: no step of any task can end it; ")
}

// An instruction without its address.
fn after_address(line: &[u8]) -> &[u8] {
    match number_field(line) {
        Some((_, instruction)) => instruction,
        None => line,
    }
}

// The block that a line says, by its address, its size and its use.
fn block_of(line: &[u8]) -> Option<SeenBlock> {
    let (start, rest) = number_field(line)?;
    let (size, used) = number_field(rest)?;
    Some(SeenBlock {
        start: u32::try_from(start).ok()?,
        size: u32::try_from(size).ok()?,
        used: use_named(used)?,
    })
}

// The use that a word names.
fn use_named(word: &[u8]) -> Option<Use> {
    match word {
        b"free" => Some(Use::Free),
        b"user" => Some(Use::User),
        b"task" => Some(Use::OfTask),
        b"module" => Some(Use::OfModule),
        b"coroutine" => Some(Use::OfCoroutine),
        b"resident" => Some(Use::OfResidents),
        _ => None,
    }
}

impl SeenBlock {
    /// The address after its last word.
    pub fn end(self) -> u64 {
        u64::from(self.start) + u64::from(self.size)
    }

    /// Whether it has a stack: that of a task, or of a coroutine.
    pub fn has_stack(self) -> bool {
        matches!(self.used, Use::OfTask | Use::OfCoroutine)
    }
}
