// The rows of a picture: a step in which something happened has one.

use crate::parties::Party;
use crate::states::State;
use std::alloc::{AllocError, Global};
use tool_texts::{Said, push_sentence};

/// How an arrow looks.
#[derive(Clone, Copy, PartialEq, Eq)]
pub enum Arrow {
    /// A packet is sent.
    Sent,
    /// A packet goes back.
    Returned,
    /// A byte is written.
    Written,
}

/// How a mark on a lane looks.
#[derive(Clone, Copy, PartialEq, Eq)]
pub enum Mark {
    /// Something is called or taken.
    Dot,
    /// Something is refused, or a fault.
    Cross,
    /// A task ends.
    End,
    /// A key comes in.
    Key,
}

/// What is drawn over the lanes of a row.
#[derive(Clone, Copy)]
pub enum Drawn {
    /// An arrow from one lane to another.
    Arrow {
        /// Whose lane it leaves.
        from: Party,
        /// Whose lane it comes to.
        to: Party,
        /// How it looks.
        look: Arrow,
    },
    /// A mark on a lane.
    Mark {
        /// Whose lane it is on.
        on: Party,
        /// How it looks.
        look: Mark,
    },
}

/// A new state of a task.
#[derive(Clone, Copy)]
pub struct Change {
    /// The task.
    pub party: Party,
    /// Its state from then on.
    pub state: State,
}

/// A new priority of a task.
#[derive(Clone, Copy)]
pub struct NewPriority {
    /// The task.
    pub party: Party,
    /// Its priority from then on.
    pub priority: u64,
}

/// What is said beside a row.
#[derive(Drop)]
pub struct Saying {
    /// The words.
    pub text: Vec<u8>,
    /// Whether something went wrong.
    pub is_bad: bool,
}

/// A row.
#[derive(Drop)]
pub struct Row {
    /// The step.
    pub step: u64,
    /// The tick after it.
    pub tick: u64,
    /// Arrows and marks, in their order.
    pub drawn: Vec<Drawn>,
    /// What is said.
    pub sayings: Vec<Saying>,
    /// The states that tasks get, in their order.
    pub changes: Vec<Change>,
    /// The priority that a task gets.
    pub priority: Option<NewPriority>,
    /// The packets that came into a queue.
    pub packets: Vec<u64>,
}

impl Row {
    /// A row in which nothing is yet.
    pub fn new(alloc: Global, step: u64, tick: u64) -> Row {
        Row {
            step,
            tick,
            drawn: Vec::new(alloc),
            sayings: Vec::new(alloc),
            changes: Vec::new(alloc),
            priority: None,
            packets: Vec::new(alloc),
        }
    }

    /// Says something.
    pub fn say(&mut self, alloc: Global, is_bad: bool, parts: &[Said]) -> Result<(), AllocError> {
        let mut text = Vec::new(alloc);
        push_sentence(&mut text, parts)?;
        self.sayings.push(Saying { text, is_bad })?;
        Ok(())
    }

    /// Whether an arrow comes to a party.
    pub fn has_arrow_to(&self, party: Party) -> bool {
        self.drawn.iter().any(|drawn| matches!(drawn, Drawn::Arrow { to, .. } if *to == party))
    }

    /// How many arrows there are.
    pub fn arrow_count(&self) -> u64 {
        let arrows = self
            .drawn
            .iter()
            .filter(|drawn| matches!(drawn, Drawn::Arrow { .. }));
        arrows.count() as u64
    }
}
