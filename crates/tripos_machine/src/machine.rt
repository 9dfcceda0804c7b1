// A machine of either kind.
ghost use Rattle.std.specs.Prelude.{◌≡◌, ◌<◌, ◌+◌, ◌-◌, ◌≤◌, [], None, MatchOption, ℕ};
ghost use Rattle.instruction_set.specs.Writes.{list_of};
ghost use Rattle.kernel_model.specs.KernelRecord.Ranges.{most_steps};
ghost use Rattle.tripos_machine.specs.Breakpoints.{Avoids, IsPlain, IsPlainStep};
ghost use Rattle.tripos_machine.specs.GuestWrites.{guest_writes, is_kernels};
ghost use Rattle.tripos_machine.specs.Histories.{HasHistory};
ghost use Rattle.tripos_machine.specs.Quiet.{AreQuiet, IsIdle};
ghost use Rattle.tripos_machine.specs.State.{IsBare, IsSound, RepresentsFullState, RepresentsState, State, keys_of, regs_of, running_of, steps_of, stop_of, typed, words_of};
ghost use Rattle.tripos_machine.specs.Step.{boot_events, run, step};
ghost use Rattle.kernel_model.specs.KernelRecord.LoggedEvents.{LogsAll};

use crate::Parts;
use crate::kinds::Kind;
use bare_machine::Bare;
use instruction_set::{Places, Writes};
use kernel_lists::EventLog;
use kernel_machine::{Machine as FullMachine, Parts as FullParts};
use kernel_model::Stop;
use std::marker::Model;
use word_store::{Regs, Store};

/// A machine of either kind. Contracts see it as its state, all keys of its script, and the bytes of what it did last.
pub struct Machine {
    /// A machine without a kernel, or one with it.
    pub(crate) kind: Kind,
}

// Written out, so that it is a call: where it is derived, the proof of each function that drops one goes through all its parts.
impl Drop for Machine {
    fn drop(self) {
        let Machine { kind: _ } = self;
    }
}

impl Model for Machine {
    ghost use Rattle.tripos_machine.specs.Machine.{MachineView, view_of};

    ghost Value = { MachineView };

    ghost view = { λ m. view_of m.kind };
}

impl Machine {
    /// The machine with these parts, which has not stopped, and has no output. Its keys are all those of the script.
    pub fn from_parts(parts: Parts) -> Machine
        requires { (s : State) × RepresentsState parts s × IsSound s × (stop_of s ≡ None) }
        ensures state { (s : State) → RepresentsState parts s → IsSound s → stop_of s ≡ None
            → result.state ≡ s }
        ensures keys { result.keys ≡ keys_of parts }
        ensures output { result.output ≡ [] }
    {
        let kind = match parts {
            Parts::Bare(parts) => Kind::Bare(Bare::from_parts(parts)),
            Parts::Full(parts) => Kind::Full(FullMachine::from_parts(parts)),
        };
        Machine { kind }
    }

    /// Its parts. They are those of its state, which is sound, and the script has all its keys.
    pub fn into_parts(self) -> Parts
        ensures represents { RepresentsState result self.state }
        ensures sound { IsSound self.state }
        ensures keys { keys_of result ≡ self.keys }
    {
        let Machine { kind } = self;
        match kind {
            Kind::Bare(machine) => Parts::Bare(machine.into_parts()),
            Kind::Full(machine) => Parts::Full(machine.into_parts()),
        }
    }

    /// The parts of a machine with a kernel, lent, with all its keys; `None` exactly for one without, which has no keys.
    pub fn kernel_parts(&self) -> Option<&FullParts>
        ensures represents { MatchOption result (IsBare self.now.state)
            (λ parts. RepresentsFullState parts.now self.now.state) }
        ensures sound { IsSound self.now.state }
        ensures keys { MatchOption result (self.now.keys ≡ [])
            (λ parts. parts.now.keys.keys ≡ self.now.keys) }
    {
        match &self.kind {
            Kind::Bare(machine) => {
                machine.parts();
                None
            }
            Kind::Full(machine) => Some(machine.parts()),
        }
    }

    /// The words of its store, lent.
    pub fn store(&self) -> &Store
        ensures { result.now ≡ words_of self.now.state }
    {
        match &self.kind {
            Kind::Bare(machine) => &machine.parts().store,
            Kind::Full(machine) => &machine.parts().store,
        }
    }

    /// Its registers.
    pub fn regs(&self) -> Regs
        ensures { result ≡ regs_of self.now.state }
    {
        match &self.kind {
            Kind::Bare(machine) => machine.parts().regs,
            Kind::Full(machine) => machine.parts().regs,
        }
    }

    /// The steps taken so far.
    pub fn steps(&self) -> u64
        ensures { result ≡ steps_of self.now.state }
    {
        match &self.kind {
            Kind::Bare(machine) => machine.parts().step,
            Kind::Full(machine) => machine.parts().step,
        }
    }

    /// The number of the task that runs; 0 where nobody runs, and on a machine without a kernel.
    pub fn running(&self) -> u32
        ensures { result ≡ running_of self.now.state }
    {
        match &self.kind {
            Kind::Bare(_) => 0,
            Kind::Full(machine) => machine.running(),
        }
    }

    /// What a guest's instruction writes in the next step: nothing where it is a call or a fault, and where no guest is next.
    pub fn next_writes(&self) -> Writes
        ensures { list_of result ≡ guest_writes self.now.state }
    {
        match &self.kind {
            Kind::Bare(machine) => machine.next_writes(),
            Kind::Full(machine) => machine.next_writes(),
        }
    }

    /// Whether the word at the address is the kernel's, which no guest may write.
    pub fn is_kernel_word(&self, a: u32) -> bool
        ensures { result ≡ is_kernels self.now.state a }
    {
        match &self.kind {
            Kind::Bare(_) => false,
            Kind::Full(machine) => machine.is_kernel_word(a),
        }
    }

    /// Why it has stopped, if it has.
    pub fn stop(&self) -> Option<Stop>
        ensures { result ≡ stop_of self.now.state }
    {
        match &self.kind {
            Kind::Bare(machine) => machine.stop(),
            Kind::Full(machine) => machine.stop(),
        }
    }

    /// The console bytes of the steps that were taken last, lent; none before the first step.
    pub fn output(&self) -> &[u8]
        ensures { result.now ≡ self.now.output }
    {
        match &self.kind {
            Kind::Bare(machine) => machine.output(),
            Kind::Full(machine) => machine.output(),
        }
    }

    /// Notes the events of the boot of a machine that has taken no step; one without a kernel has none.
    pub fn note_boot<L: EventLog>(&self, log: &mut L)
        ensures { LogsAll L.EventLog log.old log.new (boot_events self.now.state) }
    {
        match &self.kind {
            Kind::Bare(_) => {}
            Kind::Full(machine) => machine.note_boot(log),
        }
    }

    /// Types a byte ahead. It is dropped where 128 bytes are typed ahead, and on a machine without a kernel. Nothing else changes.
    pub fn type_byte(&mut self, byte: u8)
        ensures state { self.new.state ≡ typed byte self.old.state }
        ensures output { self.new.output ≡ self.old.output }
        ensures keys { self.new.keys ≡ self.old.keys }
    {
        match &mut self.kind {
            Kind::Bare(_) => {}
            Kind::Full(machine) => machine.type_byte(byte),
        }
    }

    /// Takes one step, and answers why the machine has stopped, if it has. A machine that has stopped before stays as it is,
    /// but for its output, which is empty then. The list of its keys stays. The events that are noted are a history of its packets.
    pub fn step<L: EventLog>(&mut self, log: &mut L) -> Option<Stop>
        requires { steps_of self.old.state < most_steps }
        ensures state { self.new.state ≡ (step self.old.state).state }
        ensures output { self.new.output ≡ (step self.old.state).bytes }
        ensures events { LogsAll L.EventLog log.old log.new (step self.old.state).events }
        ensures history { HasHistory 1 self.old.state }
        ensures stop { result ≡ stop_of self.new.state }
        ensures keys { self.new.keys ≡ self.old.keys }
    {
        self.know_sound();
        match &mut self.kind {
            Kind::Bare(machine) => machine.step(),
            Kind::Full(machine) => machine.step(log),
        }
    }

    /// Takes one step of a machine that has not stopped, if nothing happens in it but that a guest executes an instruction. The answer
    /// tells where the instruction may have written: every other word but that of the ticks is as it was. The answer is `None`, and no
    /// step is taken, exactly where more happens. There is no output then, and the list of its keys stays.
    pub fn execute(&mut self) -> Option<Places>
        requires goes { stop_of self.old.state ≡ None }
        requires steps { steps_of self.old.state < most_steps }
        ensures step { MatchOption result (self.new.state ≡ self.old.state)
            (λ p. IsPlainStep p self.old.state self.new.state) }
        ensures none { result ≡ None → IsPlain self.old.state → ⊥ }
        ensures output { self.new.output ≡ [] }
        ensures keys { self.new.keys ≡ self.old.keys }
    {
        match &mut self.kind {
            Kind::Bare(machine) => machine.execute(),
            Kind::Full(machine) => machine.execute(),
        }
    }

    /// For how many steps from here nobody runs and no device acts, on a machine that has not stopped: nothing happens in them but that
    /// steps and ticks are counted. 0 where somebody runs, and where a device acts in the next step.
    pub fn idle_steps(&self) -> u64
        requires goes { stop_of self.now.state ≡ None }
        ensures quiet { (n : ℕ) → n ≤ result → AreQuiet n self.now.state }
        ensures some { IsIdle self.now.state → 0 < result }
    {
        match &self.kind {
            Kind::Bare(_) => 0,
            Kind::Full(machine) => machine.idle_steps(),
        }
    }

    /// Takes some steps, at most `most`, of a machine that has not stopped, up to the step that stops it or the first that leads to a
    /// breakpoint, if there is one: the byte address of an instruction that a guest executes next. The answer is how many these are;
    /// the output is what they wrote. The list of its keys stays. The events that are noted are a history of its packets.
    pub fn advance<L: EventLog>(&mut self, most: u64, breakpoints: &[u32], log: &mut L) -> u64
        requires goes { stop_of self.old.state ≡ None }
        requires some { 0 < most }
        requires steps { steps_of self.old.state + most ≤ most_steps }
        ensures some { 0 < result }
        ensures most { result ≤ most }
        ensures state { self.new.state ≡ (run result self.old.state).state }
        ensures output { self.new.output ≡ (run result self.old.state).bytes }
        ensures events { LogsAll L.EventLog log.old log.new (run result self.old.state).events }
        ensures history { HasHistory result self.old.state }
        ensures last { stop_of (run (result - 1) self.old.state).state ≡ None }
        ensures before { Avoids breakpoints.now result self.old.state }
        ensures keys { self.new.keys ≡ self.old.keys }
    {
        self.know_sound();
        match &mut self.kind {
            Kind::Bare(machine) => machine.advance(most, breakpoints),
            Kind::Full(machine) => machine.advance(most, breakpoints, log),
        }
    }

    /// Tells that its state is one between steps.
    pub fn know_sound(&self)
        ensures { IsSound self.now.state }
    {
        self.kernel_parts();
    }
}
