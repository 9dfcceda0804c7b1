// The left machine, and those of its console bytes that wait.
ghost use Rattle.std.specs.Prelude.{◌≡◌, ◌+◌, ◌-◌, ◌<◌, ◌≤◌, ◌^◌, [], ◌++◌, IfOk, drop, false, length, slice_get, true, ℕ};
ghost use Rattle.circular_buffer.specs.Buffer.{buffer};
ghost use Rattle.kernel_model.specs.KernelRecord.Ranges.{most_steps};
ghost use Rattle.tripos_machine.specs.Quiet.{AreQuiet, IsIdle};
ghost use Rattle.tripos_machine.specs.State.{steps_of};
ghost use Rattle.tripos_machine.specs.Step.{run};
ghost use Rattle.machine_ring.specs.Private.IdleRounds.{IsStill, left_after};
ghost use Rattle.machine_ring.specs.Rounds.{after_step, can_step};

use crate::terms::MOST_WAITING;
use byte_streams::WantMemory;
use circular_buffer::HeapCircularBuffer;
use kernel_lists::NoLog;
use std::alloc::Global;
use std::marker::Model;
use tripos_machine::Machine;

/// The left machine, and its bytes that wait. It is seen as its state and these bytes.
pub(crate) struct LeftEnd {
    /// The machine.
    pub(crate) machine: Machine,
    /// The first bytes that wait. The others are in the machine's output, so that they need no room.
    pub(crate) held: HeapCircularBuffer<u8>,
    /// How many bytes of the machine's output are held by now, or wait no longer: those before the others.
    pub(crate) taken: usize,
}

// Written out, so that it is a call: where it is derived, the proof of each function that drops one goes through all its parts.
impl Drop for LeftEnd {
    fn drop(self) {
        let LeftEnd {
            machine: _,
            held: _,
            taken: _,
        } = self;
    }
}

impl Model for LeftEnd {
    ghost use Rattle.machine_ring.specs.LeftEnds.{IsLeftEnd, left_of};
    ghost use Rattle.machine_ring.specs.Rings.{Left};

    ghost Value = { Left };

    ghost view = { left_of };

    ghost invariant = { IsLeftEnd };
}

impl LeftEnd {
    /// The machine, of which no byte waits, with room for those that will.
    pub(crate) fn new(machine: Machine, room: HeapCircularBuffer<u8>) -> LeftEnd
        requires output { machine.output ≡ [] }
        requires room { room ≡ buffer [] MOST_WAITING }
        ensures { result ≡ record { state = machine.state; waiting = [] } }
    {
        LeftEnd {
            machine,
            held: room,
            taken: 0,
        }
    }

    /// Takes a step where at most 8,192 bytes wait, and the machine has neither stopped nor taken so many steps.
    pub(crate) fn step(&mut self, most: u64)
        requires { most ≤ most_steps }
        ensures { self.new ≡ after_step most self.old }
    {
        if self.waiting() > MOST_WAITING {
            return;
        }
        if !can_step(&self.machine, most) {
            return;
        }
        let others = &self.machine.output()[self.taken..];
        hold(&mut self.held, others);
        self.machine.step(&mut NoLog);
        self.taken = 0;
    }

    /// How many bytes wait.
    pub(crate) fn waiting(&self) -> usize
        ensures count { result ≡ length self.now.waiting }
        ensures most { result < 2 ^ 64 - 2 ^ 32 }
    {
        self.held.len() + (self.machine.output().len() - self.taken)
    }

    /// The first of them.
    pub(crate) fn first(&self) -> Option<u8>
        ensures { result ≡ slice_get self.now.waiting 0 }
    {
        match self.held.front() {
            Some(byte) => Some(*byte),
            None => self.machine.output().get(self.taken).copied(),
        }
    }

    /// It waits no longer.
    pub(crate) fn drop_first(&mut self)
        ensures state { self.new.state ≡ self.old.state }
        ensures waiting { self.new.waiting ≡ drop 1 self.old.waiting }
    {
        if self.held.pop_front().is_some() {
            return;
        }
        if self.taken < self.machine.output().len() {
            self.taken += 1;
        }
    }

    /// For how many rounds from here it is known that no byte waits, and that the machine, which takes at most so many steps, writes
    /// none: it takes no step any more, or nobody runs there and no device acts. 0 where a byte waits.
    pub(crate) fn still_rounds(&self, most: u64) -> u64
        ensures waiting { 0 < result → self.now.waiting ≡ [] }
        ensures still { (n : ℕ) → n ≤ result → 0 < result → IsStill n most self.now.state }
        ensures done { self.now.waiting ≡ [] → can_step most self.now.state ≡ false
            → result + 1 ≡ 2 ^ 64 }
        ensures idle { self.now.waiting ≡ [] → can_step most self.now.state ≡ true
            → IsIdle self.now.state
            → 0 < result }
    {
        if self.waiting() > 0 {
            return 0;
        }
        if !can_step(&self.machine, most) {
            return u64::MAX;
        }
        self.machine.idle_steps().min(most - self.machine.steps())
    }

    /// Takes its steps of so many rounds, in which no byte waits.
    pub(crate) fn pass(&mut self, n: u64, most: u64)
        requires some { 0 < n }
        requires most { most ≤ most_steps }
        requires waiting { self.old.waiting ≡ [] }
        requires still { IsStill n most self.old.state }
        ensures { self.new ≡ left_after n most self.old }
    {
        if !can_step(&self.machine, most) {
            return;
        }
        take_quiet_steps(&mut self.machine, n);
        self.taken = 0;
    }
}

/// Room for the bytes that wait. `WantMemory` comes only where memory could not be had.
pub(crate) fn waiting_room(alloc: Global) -> Result<HeapCircularBuffer<u8>, WantMemory>
    ensures { IfOk result (λ room. room ≡ buffer [] MOST_WAITING) }
{
    match HeapCircularBuffer::with_capacity(alloc, MOST_WAITING) {
        Ok(room) => Ok(room),
        Err(_) => Err(WantMemory),
    }
}

// Takes so many steps of a machine that writes nothing in them, and does not stop.
fn take_quiet_steps(machine: &mut Machine, n: u64)
    requires some { 0 < n }
    requires steps { steps_of machine.old.state + n ≤ most_steps }
    requires quiet { (i : ℕ) → i ≤ n → AreQuiet i machine.old.state }
    ensures state { machine.new.state ≡ (run n machine.old.state).state }
    ensures output { machine.new.output ≡ [] }
{
    let mut taken = 0;
    while taken < n {
        taken += machine.advance(n - taken, &[], &mut NoLog);
    }
}

// Holds these bytes too. Mostly there are none.
fn hold(held: &mut HeapCircularBuffer<u8>, others: &[u8])
    requires { length held.old.items + length others.now ≤ held.old.capacity }
    ensures { held.new ≡ buffer (held.old.items ++ others.now) held.old.capacity }
{
    if others.is_empty() {
        return;
    }
    held.extend_from_slice(others);
}

/// Whether a machine has not stopped, and has taken fewer steps than so many.
pub(crate) fn can_step(machine: &Machine, most: u64) -> bool
    ensures { result ≡ can_step most machine.now.state }
{
    machine.stop().is_none() && machine.steps() < most
}
