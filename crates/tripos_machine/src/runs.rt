// Runs of a machine of either kind.
ghost use Rattle.std.specs.Prelude.{◌≡◌, ◌+◌, ◌≤◌, false, ℕ};
ghost use Rattle.kernel_model.specs.KernelRecord.Ranges.{most_steps};
ghost use Rattle.byte_streams.specs.Sinks.{GathersFor};
ghost use Rattle.tripos_machine.specs.Histories.{HasHistory};
ghost use Rattle.tripos_machine.specs.Runs.{EndsRun, LeavesOutput};
ghost use Rattle.tripos_machine.specs.State.{steps_of};
ghost use Rattle.tripos_machine.specs.Step.{run};

use crate::Machine;
use byte_streams::{NoSink, Output, Sink, SinkFault, gather};
use kernel_lists::{EventLog, NoLog};
use kernel_model::Stop;

impl Machine {
    /// Takes at most n steps, whose console bytes are gathered, and whose events are noted. The answer is why the machine has
    /// stopped. `SinkFault` comes only where the sink's count of faults rose, or the log, which had not failed, has failed; then
    /// the machine is as it is after the steps taken so far. Its output is what the last of these wrote. The list of its keys stays.
    /// However many of the steps are taken, their events are a history of its packets.
    pub fn run<K: Sink, L: EventLog>(
        &mut self,
        n: u64,
        out: &mut K,
        pending: &mut Output,
        log: &mut L,
    ) -> Result<Stop, SinkFault>
        requires steps { steps_of self.old.state + n ≤ most_steps }
        requires works { L.has_failed log.old ≡ false }
        ensures end { EndsRun n self.old.state self.new.state (L.noted log.old) (L.noted log.new)
            (L.has_failed log.old) (L.has_failed log.new)
            (K.faults out.old) (K.faults out.new) result }
        ensures history { (i : ℕ) → i ≤ n → HasHistory i self.old.state }
        ensures bytes { GathersFor K.Sink out.old out.new pending.old pending.new
            (run n self.old.state).bytes result }
        ensures later { K.faults out.old ≤ K.faults out.new }
        ensures output { LeavesOutput n self.old.state self.new.state self.old.output self.new.output }
        ensures keys { self.new.keys ≡ self.old.keys }
    {
        self.know_sound();
        let mut taken = 0;
        while taken < n {
            if let Some(stop) = self.stop() {
                return Ok(stop);
            }
            taken += self.advance(n - taken, &[], log);
            gather(out, pending, self.output())?;
            if log.failed() {
                return Err(SinkFault);
            }
        }
        Ok(self.stop().unwrap_or(Stop::Steps))
    }

    /// Takes at most n steps. Their console bytes and their events go nowhere, but for the output, which is what the last of them wrote.
    /// The list of its keys stays.
    pub fn run_unheard(&mut self, n: u64)
        requires { steps_of self.old.state + n ≤ most_steps }
        ensures state { self.new.state ≡ (run n self.old.state).state }
        ensures output { LeavesOutput n self.old.state self.new.state self.old.output self.new.output }
        ensures keys { self.new.keys ≡ self.old.keys }
    {
        match self.run(n, &mut NoSink, &mut Output::new(), &mut NoLog) {
            Ok(_) => {}
            Err(SinkFault) => unreachable!(),
        }
    }
}
