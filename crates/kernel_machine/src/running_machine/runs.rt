// Several steps of a machine with a kernel.
ghost use Rattle.std.specs.Prelude.{◌≡◌, ◌<◌, ◌+◌, ◌≤◌, [], MatchOption, None, ℕ};
ghost use Rattle.kernel_model.specs.KernelRecord.Ranges.{most_steps};
ghost use Rattle.kernel_machine.specs.KernelSteps.Step.{run};
ghost use Rattle.kernel_machine.specs.KernelSteps.Stepped.{quietly};
ghost use Rattle.kernel_machine.specs.RunningMachine.PlainSteps.{IsPlain, IsPlainStep};
ghost use Rattle.kernel_machine.specs.RunningMachine.Runs.{AreQuiet, Avoids, IsIdle, IsQuietButLast, is_met};
ghost use Rattle.kernel_model.specs.KernelRecord.LoggedEvents.{LogsAll};

use crate::running_machine::machine::Machine;
use crate::running_machine::plain_steps::execute_one;
use crate::running_machine::spans::{idle_steps, pass};
use instruction_set::{Places, has_breakpoint};
use kernel_lists::{EventLog, FIRST_GUEST};

impl Machine {
    /// Takes some steps, at most `most`, of a machine that has not stopped, of which only the last one may write bytes, have events
    /// or stop the machine. The answer is how many these are: it takes no step after one that leaves the running guest's next
    /// instruction at a breakpoint. The list of its keys stays.
    pub fn advance<L: EventLog>(&mut self, most: u64, breakpoints: &[u32], log: &mut L) -> u64
        requires goes { self.old.kernel.stop ≡ None }
        requires some { 0 < most }
        requires steps { self.old.kernel.steps + most ≤ most_steps }
        ensures some { 0 < result }
        ensures most { result ≤ most }
        ensures last { IsQuietButLast result self.old.kernel }
        ensures before { Avoids breakpoints.now result self.old.kernel }
        ensures kernel { self.new.kernel ≡ (run result self.old.kernel).kernel }
        ensures output { self.new.output ≡ (run result self.old.kernel).bytes }
        ensures events { LogsAll L.EventLog log.old log.new (run result self.old.kernel).events }
        ensures keys { self.new.keys ≡ self.old.keys }
    {
        let quiet = self.pass(most, breakpoints);
        if quiet == most {
            return quiet;
        }
        if quiet > 0 && self.is_met(breakpoints) {
            return quiet;
        }
        self.step(log);
        quiet + 1
    }

    /// For how many steps from here nobody runs and no device acts, on a machine that has not stopped: nothing happens in them but that
    /// steps and ticks are counted. 0 where somebody runs, and where a device acts in the next step.
    pub fn idle_steps(&self) -> u64
        requires goes { self.now.kernel.stop ≡ None }
        ensures quiet { (n : ℕ) → n ≤ result → AreQuiet n self.now.kernel }
        ensures some { IsIdle self.now.kernel → 0 < result }
    {
        idle_steps(&self.parts)
    }

    /// Takes one step of a machine that has not stopped, if nothing happens in it but that the running guest executes an
    /// instruction. The answer tells the words that the instruction may have written: every other one, but that of the ticks, is as
    /// it was. The answer is `None`, and no step is taken, exactly where more happens. The output is empty, and the list of its keys
    /// stays.
    pub fn execute(&mut self) -> Option<Places>
        requires goes { self.old.kernel.stop ≡ None }
        requires steps { self.old.kernel.steps < most_steps }
        ensures step { MatchOption result (self.new.kernel ≡ self.old.kernel)
            (λ p. IsPlainStep p self.old.kernel self.new.kernel) }
        ensures none { result ≡ None → IsPlain self.old.kernel → ⊥ }
        ensures output { self.new.output ≡ [] }
        ensures keys { self.new.keys ≡ self.old.keys }
    {
        self.output.clear();
        execute_one(&mut self.parts)
    }

    // Whether the running guest's next instruction is at one of these breakpoints.
    fn is_met(&self, breakpoints: &[u32]) -> bool
        ensures { result ≡ is_met breakpoints.now self.now.kernel }
    {
        if self.running() < FIRST_GUEST {
            return false;
        }
        has_breakpoint(self.parts.regs.pc, breakpoints)
    }

    // Takes at most `most` steps, of which none shows or notes anything, or stops the machine, up to a breakpoint.
    fn pass(&mut self, most: u64, breakpoints: &[u32]) -> u64
        requires goes { self.old.kernel.stop ≡ None }
        requires steps { self.old.kernel.steps + most ≤ most_steps }
        ensures most { result ≤ most }
        ensures quiet { run result self.old.kernel ≡ quietly self.new.kernel }
        ensures goes { self.new.kernel.stop ≡ None }
        ensures before { Avoids breakpoints.now result self.old.kernel }
        ensures output { self.new.output ≡ [] }
        ensures keys { self.new.keys ≡ self.old.keys }
    {
        self.output.clear();
        pass(&mut self.parts, most, breakpoints)
    }
}
