// What is kept of the steps of one task.
use run_names::Party;

/// An instruction that was executed.
#[derive(Drop)]
pub struct Done {
    /// The step.
    pub step: u64,
    /// Its byte address.
    pub pc: u32,
    /// Its text.
    pub instruction: Vec<u8>,
}

/// That PC became 0.
#[derive(Drop)]
pub struct Death {
    /// The step.
    pub step: u64,
    /// The last instruction before it, if there was one.
    pub done: Option<Done>,
}

/// How PC came from an instruction to the next one.
#[derive(Drop)]
pub struct Way {
    /// The step.
    pub step: u64,
    /// The byte address of the instruction.
    pub from: u32,
    /// That of the next one.
    pub goal: u32,
    /// Whether the instruction led elsewhere than to the one after it.
    pub is_led: bool,
    /// Its text.
    pub by: Vec<u8>,
}

/// A frame, or a word of one, that was written beyond a stack.
#[derive(Drop)]
pub struct Beyond {
    /// The address of the block that has the stack.
    pub stack: u64,
    /// The step.
    pub step: u64,
    /// The byte address of the instruction.
    pub pc: u32,
    /// The first word that it wrote.
    pub first: u64,
    /// The last one.
    pub last: u64,
    /// Its text.
    pub by: Vec<u8>,
}

/// A send that was refused.
#[derive(Drop)]
pub struct Refusal {
    /// The step.
    pub step: u64,
    /// The call.
    pub call: Vec<u8>,
    /// Its code, and what that means.
    pub why: Vec<u8>,
}

/// That somebody took a packet.
#[derive(Clone, Copy)]
pub struct Take {
    /// Who took it.
    pub by: Party,
    /// The step.
    pub step: u64,
}

/// What is kept of the steps of one task.
#[derive(Drop)]
pub struct Trail {
    /// Whether it has met a fault at the end.
    pub is_faulted: bool,
    /// Its last instruction.
    pub done: Option<Done>,
    /// Its last death.
    pub death: Option<Death>,
    /// How PC came to its last instruction.
    pub before: Option<Way>,
    /// The last way by an instruction that led elsewhere than to the one after it.
    pub led: Option<Way>,
    /// The last way out of the code.
    pub left: Option<Way>,
    /// The first frame that it wrote beyond a stack.
    pub beyond: Option<Beyond>,
    /// Why its last send was refused, if it was.
    pub refusal: Option<Refusal>,
}

impl Trail {
    /// One that has done nothing.
    pub fn new() -> Trail {
        Trail {
            is_faulted: false,
            done: None,
            death: None,
            before: None,
            led: None,
            left: None,
            beyond: None,
            refusal: None,
        }
    }
}
