// What a machine can go back to.
ghost use Rattle.std.specs.Prelude.{◌≡◌, ◌<◌, ◌+◌, [], None, IfOk, length};
ghost use Rattle.kernel_model.specs.KernelRecord.Ranges.{most_steps};
ghost use Rattle.tripos_machine.specs.State.{steps_of, stop_of};
ghost use Rattle.tripos_machine.specs.Step.{step};
ghost use Rattle.debugger.specs.MachineHistory.Pasts.{now_of, past_back, remembered, state_back};

use crate::machine_history::files::{KeptFiles, first_files};
use crate::machine_history::moments::{Moment, moment_of};
use crate::machine_history::returns::{bare_back, full_back};
use crate::machine_history::steps::note_step;
use crate::machine_history::turns::{is_file_turn, keep_files, make_room};
use crate::undo_journal::Journal;
use byte_streams::WantMemory;
use circular_buffer::HeapCircularBuffer;
use std::alloc::Global;
use std::marker::Model;
use tripos_machine::{Machine, Parts};

/// The most states that are kept.
const STATES: u32 = 4_096;

/// The most words that change from each to the next, all together.
const CHANGES: u32 = 65_536;

/// The states that a machine can go back to, and what is known of the one that is now. Contracts see it as these. Memory is taken
/// when it is made, and never again.
pub struct History {
    /// The words now and before, each with the moment that they were of.
    journal: Journal<Moment>,
    /// The files and pipes now and before, of a machine that has a kernel.
    files: Option<HeapCircularBuffer<KeptFiles>>,
    /// The steps that the machine has taken now.
    steps: u64,
    /// All keys of the machine, of which it is kept how many had come at each moment.
    keys: Vec<(u32, u8)>,
}

// Written out, so that it is a call: where it is derived, the proof of each function that drops one goes through all its parts.
impl Drop for History {
    fn drop(self) {
        let History {
            journal: _,
            files: _,
            steps: _,
            keys: _,
        } = self;
    }
}

impl Model for History {
    ghost use Rattle.debugger.specs.MachineHistory.Histories.{IsHistory, view_of};
    ghost use Rattle.debugger.specs.MachineHistory.Pasts.{HistoryView};

    ghost Value = { HistoryView };

    ghost view = { view_of };

    ghost invariant = { IsHistory };
}

impl History {
    /// The history of a machine that begins now: nothing is past. `WantMemory` comes only where memory could not be had.
    pub fn new(alloc: Global, machine: &Machine) -> Result<History, WantMemory>
        ensures { IfOk result (λ h. h ≡ record { past = []; now = now_of machine.now.state machine.now.keys }) }
    {
        let files = match machine.kernel_parts() {
            Some(parts) => Some(first_files(alloc, parts)?),
            None => None,
        };
        let journal = Journal::new(alloc, machine.store(), STATES, CHANGES)?;
        Ok(History {
            journal,
            files,
            steps: machine.steps(),
            keys: keys_of(alloc, machine)?,
        })
    }

    /// Takes a step of the machine whose history this is, which has not stopped. The state before it can be gone back to then, and as
    /// many before it as fit.
    pub fn step(&mut self, machine: &mut Machine)
        requires now { self.old.now ≡ now_of machine.old.state machine.old.keys }
        requires goes { stop_of machine.old.state ≡ None }
        requires steps { steps_of machine.old.state < most_steps }
        ensures state { machine.new.state ≡ (step machine.old.state).state }
        ensures output { machine.new.output ≡ (step machine.old.state).bytes }
        ensures past { self.new.past ≡ remembered self.old.past machine.old.state machine.new.state }
        ensures now { self.new.now ≡ now_of machine.new.state machine.new.keys }
        ensures keys { machine.new.keys ≡ machine.old.keys }
    {
        let moment = moment_of(machine);
        let may_change = is_file_turn(machine);
        make_room(&mut self.journal, &self.files, self.steps, may_change);
        note_step(&mut self.journal, machine, moment);
        self.steps += 1;
        keep_files(&mut self.files, self.steps, may_change, machine);
    }

    /// Makes the machine whose history this is what it was n steps before, or as many as can be gone back. Where there are none, it
    /// stays as it is, also where it has stopped; else it has not stopped then.
    pub fn back(&mut self, machine: Machine, n: u32) -> Machine
        requires { self.old.now ≡ now_of machine.state machine.keys }
        ensures state { result.state ≡ state_back n self.old.past machine.state }
        ensures past { self.new.past ≡ past_back n self.old.past }
        ensures now { self.new.now ≡ now_of result.state result.keys }
        ensures keys { result.keys ≡ machine.keys }
    {
        let n = n.min(self.journal.len());
        if n == 0 {
            return machine;
        }
        let parts = match machine.into_parts() {
            Parts::Bare(mut parts) => {
                bare_back(&mut self.journal, n, &mut parts);
                self.steps = parts.step;
                Parts::Bare(parts)
            }
            Parts::Full(mut parts) => {
                full_back(&mut self.journal, &mut self.files, n, &mut parts);
                self.steps = parts.step;
                Parts::Full(parts)
            }
        };
        Machine::from_parts(parts)
    }

    /// How many states can be gone back to, at most 4,096.
    pub fn len(&self) -> u32
        ensures { result ≡ length self.now.past }
    {
        self.journal.len()
    }
}

// A copy of all keys of a machine; one without a kernel has none.
fn keys_of(alloc: Global, machine: &Machine) -> Result<Vec<(u32, u8)>, WantMemory>
    ensures { IfOk result (λ keys. keys.items ≡ machine.now.keys) }
{
    let keys = match machine.kernel_parts() {
        Some(parts) => parts.keys.all(),
        None => &[],
    };
    match Vec::from_slice(alloc, keys) {
        Ok(keys) => Ok(keys),
        Err(_) => Err(WantMemory),
    }
}
