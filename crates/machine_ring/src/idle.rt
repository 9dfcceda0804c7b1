// Rounds in which nothing happens but that the two machines take their steps: they are taken many at once.
ghost use Rattle.std.specs.Prelude.{◌≡◌, ◌+◌, ◌-◌, ◌<◌, ◌≤◌, ◌^◌, None, [], false, true, ℕ};
ghost use Rattle.byte_streams.specs.Sinks.{FailsBySink, GathersFor};
ghost use Rattle.kernel_model.specs.KernelRecord.Ranges.{most_steps};
ghost use Rattle.tripos_machine.specs.Quiet.{IsIdle};
ghost use Rattle.tripos_machine.specs.State.{stop_of};
ghost use Rattle.machine_ring.specs.Private.IdleRounds.{AreIdle, is_empty};
ghost use Rattle.machine_ring.specs.Rounds.{can_step};
ghost use Rattle.machine_ring.specs.Runs.{run};

use crate::left::{LeftEnd, can_step};
use crate::links::LinkParts;
use byte_streams::{Output, Sink, SinkFault, gather};
use kernel_lists::NoLog;
use tripos_machine::Machine;

/// For how many rounds from here nothing happens but that the two machines take their steps, as far as this is known: nothing is in
/// flight, no byte of the left machine waits, and it takes no step any more, or nobody runs there and no device acts. Where all that is
/// so it is some rounds at least, and where no step comes any more as many as there can be.
pub(crate) fn idle_rounds(left: &LeftEnd, link: &LinkParts) -> u64
    requires { link.now.terms.left_steps ≤ most_steps }
    ensures idle { (n : ℕ) → n ≤ result → 0 < result
        → (left.now.waiting ≡ [] → link.now.sender.outstanding ≡ None)
        → AreIdle n left.now link.now }
    ensures done { is_empty link.now ≡ true → left.now.waiting ≡ []
        → can_step link.now.terms.left_steps left.now.state ≡ false
        → result + 1 ≡ 2 ^ 64 }
    ensures some { is_empty link.now ≡ true → left.now.waiting ≡ []
        → can_step link.now.terms.left_steps left.now.state ≡ true → IsIdle left.now.state
        → 0 < result }
{
    if !link.is_empty() {
        return 0;
    }
    left.still_rounds(link.left_steps())
}

/// Takes some of these rounds, of which the right machine may stop in the last one alone, and gathers its console bytes. Where neither
/// machine takes a step any more they are all rounds that may come.
pub(crate) fn pass<K: Sink>(
    left: &mut LeftEnd,
    link: &mut LinkParts,
    right: &mut Machine,
    most: u64,
    out: &mut K,
    pending: &mut Output,
) -> Result<(), SinkFault>
    requires idle { (n : ℕ) → n ≤ most → AreIdle n left.old link.old }
    requires most { 0 < most }
    requires going { link.old.rounds < link.old.terms.rounds }
    requires left_steps { link.old.terms.left_steps ≤ most_steps }
    requires right_steps { link.old.terms.right_steps ≤ most_steps }
    requires goes { stop_of right.old.state ≡ None }
    ensures terms { link.new.terms ≡ link.old.terms }
    ensures some { link.old.rounds < link.new.rounds }
    ensures few { link.new.rounds ≤ link.old.terms.rounds }
    ensures ring { record { left = left.new; link = link.new; right = right.new.state }
        ≡ (run (link.new.rounds - link.old.rounds)
        (record { left = left.old; link = link.old; right = right.old.state })).ring }
    ensures bytes { GathersFor K.Sink out.old out.new pending.old pending.new
        (run (link.new.rounds - link.old.rounds)
        (record { left = left.old; link = link.old; right = right.old.state })).shown result }
    ensures cause { FailsBySink K.Sink out.old out.new result }
{
    let rounds = link.rest().min(most);
    if !can_step(right, link.right_steps()) {
        left.pass(rounds, link.left_steps());
        link.pass(rounds);
        return Ok(());
    }
    let steps = link.right_steps() - right.steps();
    let taken = right.advance(rounds.min(steps), &[], &mut NoLog);
    left.pass(taken, link.left_steps());
    link.pass(taken);
    gather(out, pending, right.output())
}
