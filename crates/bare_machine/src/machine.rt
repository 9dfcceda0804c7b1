// A machine without a kernel.
ghost use Rattle.std.specs.Prelude.{◌≡◌, ◌<◌, ◌+◌, ◌-◌, ◌≤◌, [], None, MatchOption};
ghost use Rattle.instruction_set.specs.NextWrites.{next_writes};
ghost use Rattle.instruction_set.specs.Writes.{list_of};
ghost use Rattle.kernel_model.specs.KernelRecord.Ranges.{most_steps};
ghost use Rattle.bare_machine.specs.Run.{Avoids, IsPlain, IsPlainStep, run};
ghost use Rattle.bare_machine.specs.State.{IsSound, bare_state};
ghost use Rattle.bare_machine.specs.Step.{step, unmarked};

use crate::BareParts;
use crate::advances::advance;
use crate::steps::{execute_one, step_or_stay};
use byte_streams::Output;
use instruction_set::{NoKernel, Places, Writes, next_writes};
use kernel_model::Stop;
use std::marker::Model;

/// A machine without a kernel. Contracts see it as its state, and the bytes of what it did last.
#[derive(Drop)]
pub struct Bare {
    parts: BareParts,
    stop: Option<Stop>,
    output: Output,
}

impl Model for Bare {
    ghost use Rattle.bare_machine.specs.State.{BareView, IsSound, bare_state};

    ghost Value = { BareView };

    ghost view = { λ m. record { state = bare_state m.parts m.stop; output = m.output } };

    ghost invariant = { λ m. IsSound m.parts };
}

impl Bare {
    /// The machine with these parts, which has not stopped, and has no output.
    pub fn from_parts(parts: BareParts) -> Bare
        requires { IsSound parts }
        ensures state { result.state ≡ bare_state parts None }
        ensures output { result.output ≡ [] }
    {
        Bare {
            parts,
            stop: None,
            output: Output::new(),
        }
    }

    /// Its parts.
    pub fn into_parts(self) -> BareParts
        ensures parts { bare_state result self.state.stop ≡ self.state }
        ensures sound { IsSound result }
    {
        self.parts
    }

    /// Its parts, lent.
    pub fn parts(&self) -> &BareParts
        ensures parts { bare_state result.now self.now.state.stop ≡ self.now.state }
        ensures sound { IsSound result.now }
    {
        &self.parts
    }

    /// Why it has stopped, if it has.
    pub fn stop(&self) -> Option<Stop>
        ensures { result ≡ self.now.state.stop }
    {
        self.stop
    }

    /// The console bytes of the steps that were taken last, lent; none before the first step.
    pub fn output(&self) -> &[u8]
        ensures { result.now ≡ self.now.output }
    {
        self.output.bytes()
    }

    /// What the next instruction writes: nothing where it is a call or a fault.
    pub fn next_writes(&self) -> Writes
        ensures { list_of result
            ≡ next_writes unmarked self.now.state.words self.now.state.regs }
    {
        next_writes(&self.parts.store, self.parts.regs, &NoKernel)
    }

    /// Takes one step, and answers why the machine has stopped, if it has. A machine that has stopped before stays as it is,
    /// but for its output, which is empty then.
    pub fn step(&mut self) -> Option<Stop>
        requires { self.old.state.steps < most_steps }
        ensures state { self.new.state ≡ (step self.old.state).state }
        ensures output { self.new.output ≡ (step self.old.state).bytes }
        ensures stop { result ≡ self.new.state.stop }
    {
        self.output.clear();
        self.stop = step_or_stay(&mut self.parts, self.stop, &mut self.output);
        self.stop
    }

    /// Takes one step of a machine that has not stopped, if it is an instruction alone: no call, no fault, and not the end of the
    /// function at the bottom of the stack. The answer tells where the instruction may have written: every other word is as it was.
    /// The answer is `None`, and no step is taken, exactly where it is more than that. There is no output then.
    pub fn execute(&mut self) -> Option<Places>
        requires goes { self.old.state.stop ≡ None }
        requires steps { self.old.state.steps < most_steps }
        ensures step { MatchOption result (self.new.state ≡ self.old.state)
            (λ p. IsPlainStep p self.old.state self.new.state) }
        ensures none { result ≡ None → IsPlain self.old.state → ⊥ }
        ensures output { self.new.output ≡ [] }
    {
        self.output.clear();
        execute_one(&mut self.parts)
    }

    /// Takes some steps, at most `most`, of a machine that has not stopped, up to the step that stops it or the first that leads to a
    /// breakpoint, if there is one: a byte address. The answer is how many these are; the output is what they wrote, at most 8,192
    /// bytes.
    pub fn advance(&mut self, most: u64, breakpoints: &[u32]) -> u64
        requires goes { self.old.state.stop ≡ None }
        requires some { 0 < most }
        requires steps { self.old.state.steps + most ≤ most_steps }
        ensures some { 0 < result }
        ensures most { result ≤ most }
        ensures state { self.new.state ≡ (run result self.old.state).state }
        ensures output { self.new.output ≡ (run result self.old.state).bytes }
        ensures last { (run (result - 1) self.old.state).state.stop ≡ None }
        ensures before { Avoids breakpoints.now result self.old.state }
    {
        self.output.clear();
        let done = advance(&mut self.parts, most, breakpoints, &mut self.output);
        self.stop = done.stop;
        done.steps
    }
}
