// What is known before a step.
ghost use Rattle.std.specs.Prelude.{◌≡◌};
ghost use Rattle.show_run.specs.StepLog.StepLines.{before_of, before_seen};

use crate::step_log::calls::Call;
use crate::step_log::changes::{Keys, keys_left};
use crate::step_log::faults::{FaultRecord, fault_record};
use crate::step_log::guests::call;
use tripos_machine::Machine;

/// What the lines of a step need of the machine as it was before, besides the moment.
#[derive(Clone, Copy)]
pub struct Before {
    /// The call that is made in the step, if one is.
    pub call: Option<Call>,
    /// The keys that are still to come.
    pub keys: Keys,
    /// What is recorded of a fault of the task that runs, if one runs.
    pub fault: Option<FaultRecord>,
}

/// What is known of the machine before its next step.
#[tactic(auto, unfolding(crate::specs::StepLog::StepLines::before_of))]
pub(crate) fn known_before(machine: &Machine) -> Before
    ensures { before_seen result ≡ before_of machine.now.state }
{
    Before {
        call: call(machine),
        keys: keys_left(machine),
        fault: fault_record(machine, machine.running()),
    }
}
