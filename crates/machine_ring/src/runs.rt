// The rounds of a ring, one after another.
ghost use Rattle.std.specs.Prelude.{◌≡◌, ◌<◌, ◌≤◌, IfOk, Option, slice_get, ℕ};
ghost use Rattle.byte_streams.specs.Sinks.{FailsBySink, GathersFor};
ghost use Rattle.kernel_model.specs.KernelRecord.Ranges.{most_steps};
ghost use Rattle.machine_ring.specs.Links.{carried, carried_byte, carries_back};
ghost use Rattle.machine_ring.specs.Outcomes.{outcome_of};
ghost use Rattle.machine_ring.specs.Rings.{first_ring, ring_with};
ghost use Rattle.machine_ring.specs.Rounds.{after_answer, after_step};
ghost use Rattle.machine_ring.specs.Runs.{run};

use crate::Ring;
use crate::idle::{idle_rounds, pass};
use crate::left::LeftEnd;
use crate::links::LinkParts;
use crate::outcomes::{RingOutcome, outcome_after};
use crate::right::{has_room, step};
use byte_streams::{Output, Sink, SinkFault};
use kernel_model::Stop;
use tripos_machine::Machine;

impl Ring {
    /// Takes all rounds, or those up to the one in which the right machine stops, and gathers its console bytes. `SinkFault` comes only
    /// where the sink's count of faults rose; then the sink has a prefix of what was pending, and of these bytes. No memory is taken.
    /// Rounds in which no byte can come from one machine to the other are taken many at once.
    pub fn run<K: Sink>(
        mut self,
        out: &mut K,
        pending: &mut Output,
    ) -> Result<RingOutcome, SinkFault>
        ensures outcome { IfOk result (λ o. o ≡ outcome_of (run self.link.terms.rounds self)) }
        ensures bytes { GathersFor K.Sink out.old out.new pending.old pending.new
            (run self.link.terms.rounds self).shown result }
        ensures cause { FailsBySink K.Sink out.old out.new result }
    {
        run_rounds(
            &mut self.left,
            &mut self.link,
            &mut self.right,
            out,
            pending,
        )
    }
}

// Takes the rounds of a ring, whose parts are lent.
fn run_rounds<K: Sink>(
    left: &mut LeftEnd,
    link: &mut LinkParts,
    right: &mut Machine,
    out: &mut K,
    pending: &mut Output,
) -> Result<RingOutcome, SinkFault>
    requires first { ring_with left.old link.old right.old.state
        ≡ first_ring link.old.terms left.old.state right.old.state }
    requires left_steps { link.old.terms.left_steps ≤ most_steps }
    requires right_steps { link.old.terms.right_steps ≤ most_steps }
    ensures outcome { IfOk result (λ o. o
        ≡ outcome_of (run link.old.terms.rounds (ring_with left.old link.old right.old.state))) }
    ensures bytes { GathersFor K.Sink out.old out.new pending.old pending.new
        (run link.old.terms.rounds (ring_with left.old link.old right.old.state)).shown result }
    ensures cause { FailsBySink K.Sink out.old out.new result }
{
    while link.goes_on() {
        match right.stop() {
            Some(stop) => return Ok(outcome_after(left, link, stop)),
            None => {}
        }
        let idle = idle_rounds(left, link);
        if idle > 0 {
            pass(left, link, right, idle, out, pending)?;
            continue;
        }
        match carry(left, link, has_room(right)) {
            Some(byte) => right.type_byte(byte),
            None => {}
        }
        step(right, link.right_steps(), out, pending)?;
    }
    let end = right.stop().unwrap_or(Stop::Steps);
    Ok(outcome_after(left, link, end))
}

// The left machine takes a step, and the link has a round, with room for a byte at its other end or not. The answer is the byte that it
// takes there.
fn carry(left: &mut LeftEnd, link: &mut LinkParts, room: bool) -> Option<u8>
    requires going { link.old.rounds < link.old.terms.rounds }
    requires steps { link.old.terms.left_steps ≤ most_steps }
    ensures left { (first : Option ℕ)
        → first ≡ slice_get (after_step link.old.terms.left_steps left.old).waiting 0
        → left.new ≡ after_answer (carries_back first room link.old)
        (after_step link.old.terms.left_steps left.old) }
    ensures link { (first : Option ℕ)
        → first ≡ slice_get (after_step link.old.terms.left_steps left.old).waiting 0
        → link.new ≡ carried first room link.old }
    ensures byte { (first : Option ℕ)
        → first ≡ slice_get (after_step link.old.terms.left_steps left.old).waiting 0
        → result ≡ carried_byte first room link.old }
{
    left.step(link.left_steps());
    let carried = link.carry(left.first(), room);
    if carried.acknowledged {
        left.drop_first();
    }
    carried.byte
}
