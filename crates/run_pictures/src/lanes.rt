// The lanes of a picture: a task or device has one.

use crate::lengths::Length;
use crate::log_lines::TaskLine;
use crate::parties::Party;
use crate::states::State;
use crate::texts::contains;
use std::alloc::{AllocError, Global};

/// The lane of a task or device.
#[derive(Drop)]
pub struct Lane {
    /// Whose it is.
    pub party: Party,
    /// The names of the programs that have run as this task, with a blank between each two.
    pub names: Vec<u8>,
    /// Its priority, or 0 where it is not known.
    pub priority: u64,
    /// Whether it is in the picture.
    pub is_used: bool,
    /// The state before the first step.
    pub first: State,
    /// The state now.
    pub state: State,
    /// The state in which it is when it is released, where it was held since the first step.
    pub held_from: Option<State>,
    /// Where it is, from left to right.
    pub x: Length,
    /// How far down it is drawn.
    pub drawn: Length,
}

/// Lanes that may grow, in the order in which they came.
#[derive(Drop)]
pub struct Lanes {
    /// The lanes.
    pub list: Vec<Lane>,
}

impl Lanes {
    /// The lanes of tasks before the first step. Those of residents are only used when they have something to do.
    pub fn new(alloc: Global, tasks: &[TaskLine]) -> Result<Lanes, AllocError> {
        let mut list = Vec::new(alloc);
        for task in tasks {
            list.push(task_lane(alloc, task)?)?;
        }
        Ok(Lanes { list })
    }

    /// Has the lane of a party in the picture.
    pub fn touch(&mut self, alloc: Global, party: Party) -> Result<(), AllocError> {
        if let Some(lane) = self.find(party) {
            lane.is_used = true;
            return Ok(());
        }
        self.list.push(Lane {
            party,
            names: Vec::new(alloc),
            priority: 0,
            is_used: true,
            first: State::Dead,
            state: State::Dead,
            held_from: None,
            x: Length::pixels(0),
            drawn: Length::pixels(0),
        })?;
        Ok(())
    }

    /// The lane of a party, if there is one.
    pub fn find(&mut self, party: Party) -> Option<&mut Lane> {
        self.list.iter_mut().find(|lane| lane.party == party)
    }

    /// The state of a party. One that has no lane is dead.
    pub fn state_of(&self, party: Party) -> State {
        match lane_of(self.list.as_slice(), party) {
            Some(lane) => lane.state,
            None => State::Dead,
        }
    }

    /// The lanes that are used, from left to right: the clock, the keyboard, the tasks with the highest priority first, the output. Each has its first
    /// state.
    pub fn into_order(self) -> Result<Vec<Lane>, AllocError> {
        let mut list = self.list;
        list.retain(|lane| lane.is_used);
        list.sort_by_key(|lane| (rank_of(lane.party), u64::MAX - lane.priority))?;
        for lane in list.iter_mut() {
            lane.state = lane.first;
        }
        Ok(list)
    }
}

// The lane of a task before the first step.
fn task_lane(alloc: Global, task: &TaskLine) -> Result<Lane, AllocError> {
    let party = Party::Task(task.number);
    Ok(Lane {
        party,
        names: Vec::from_slice(alloc, task.name)?,
        priority: task.priority,
        is_used: party.is_guest(),
        first: task.state,
        state: task.state,
        held_from: None,
        x: Length::pixels(0),
        drawn: Length::pixels(0),
    })
}

// The place of a kind of party, from left to right.
fn rank_of(party: Party) -> u8 {
    match party {
        Party::Clock => 0,
        Party::Keyboard => 1,
        Party::Task(_) => 2,
        Party::Output => 3,
    }
}

/// The lane of a party, if there is one.
pub fn lane_of(lanes: &[Lane], party: Party) -> Option<&Lane> {
    lanes.iter().find(|lane| lane.party == party)
}

impl Lane {
    /// Adds a name of its program, unless it has that name.
    pub fn add_name(&mut self, name: &[u8]) -> Result<(), AllocError> {
        if self.names.is_empty() {
            self.names.extend_from_slice(name)?;
            return Ok(());
        }
        if self
            .names
            .as_slice()
            .split(|c| *c == b' ')
            .any(|other| other == name)
        {
            return Ok(());
        }
        self.names.push(b' ')?;
        self.names.extend_from_slice(name)?;
        Ok(())
    }
}
