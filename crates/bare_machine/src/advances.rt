// Steps, one after another.
ghost use Rattle.std.specs.Prelude.{◌≡◌, ◌<◌, ◌+◌, ◌-◌, ◌≤◌, [], ◌++◌, None, length, true};
ghost use Rattle.kernel_model.specs.KernelRecord.Ranges.{most_steps};
ghost use Rattle.instruction_set.specs.Breakpoints.{has_breakpoint};
ghost use Rattle.bare_machine.specs.Run.{Avoids, run};
ghost use Rattle.bare_machine.specs.State.{IsSound, bare_state};

use crate::BareParts;
use crate::passes::pass;
use crate::steps::next_step;
use byte_streams::Output;
use instruction_set::has_breakpoint;
use kernel_model::Stop;

/// What steps have come to.
#[derive(Clone, Copy)]
pub(crate) struct Advanced {
    /// How many there were.
    pub steps: u64,
    /// Why the machine has stopped in the last of them, if it has.
    pub stop: Option<Stop>,
}

/// Takes some steps, at most `most`, of a machine that has not stopped, up to the step that stops it or the first that leads to a
/// breakpoint, if there is one. It ends before where there is no room for a byte more.
pub(crate) fn advance(
    parts: &mut BareParts,
    most: u64,
    breakpoints: &[u32],
    bytes: &mut Output,
) -> Advanced
    requires sound { IsSound parts.old }
    requires some { 0 < most }
    requires steps { parts.old.step + most ≤ most_steps }
    requires empty { bytes.old ≡ [] }
    ensures some { 0 < result.steps }
    ensures most { result.steps ≤ most }
    ensures state { bare_state parts.new result.stop
        ≡ (run result.steps (bare_state parts.old None)).state }
    ensures bytes { bytes.new ≡ (run result.steps (bare_state parts.old None)).bytes }
    ensures last { (run (result.steps - 1) (bare_state parts.old None)).state.stop ≡ None }
    ensures before { Avoids breakpoints.now result.steps (bare_state parts.old None) }
    ensures sound { IsSound parts.new }
{
    let mut done = pass_and_step(parts, most, breakpoints, bytes);
    while may_go_on(done, most, bytes) && !is_met(parts, breakpoints) {
        let more = pass_and_step(parts, most - done.steps, breakpoints, bytes);
        done = Advanced {
            steps: done.steps + more.steps,
            stop: more.stop,
        };
    }
    done
}

// Whether more steps may follow: the machine has not stopped, some are left, and there is room for a byte.
#[inline(always)]
fn may_go_on(done: Advanced, most: u64, bytes: &Output) -> bool
    ensures goes { result ≡ true → done.stop ≡ None }
    ensures left { result ≡ true → done.steps < most }
    ensures room { result ≡ true → length bytes.now < 8192 }
{
    done.stop.is_none() && done.steps < most && bytes.room() > 0
}

// Whether the next instruction is at a breakpoint. Most runs have none, so that is asked first.
#[inline(always)]
fn is_met(parts: &BareParts, breakpoints: &[u32]) -> bool
    ensures { result ≡ has_breakpoint parts.now.regs.pc breakpoints.now }
{
    !breakpoints.is_empty() && has_breakpoint(parts.regs.pc, breakpoints)
}

// Takes some steps, at most `most`, of a machine that has not stopped, of which only the last one may write a byte or stop it, and
// no other one leads to a breakpoint.
fn pass_and_step(
    parts: &mut BareParts,
    most: u64,
    breakpoints: &[u32],
    bytes: &mut Output,
) -> Advanced
    requires sound { IsSound parts.old }
    requires some { 0 < most }
    requires steps { parts.old.step + most ≤ most_steps }
    requires room { length bytes.old < 8192 }
    ensures some { 0 < result.steps }
    ensures most { result.steps ≤ most }
    ensures state { bare_state parts.new result.stop
        ≡ (run result.steps (bare_state parts.old None)).state }
    ensures bytes { bytes.new ≡ bytes.old ++ (run result.steps (bare_state parts.old None)).bytes }
    ensures last { (run (result.steps - 1) (bare_state parts.old None)).state.stop ≡ None }
    ensures before { Avoids breakpoints.now result.steps (bare_state parts.old None) }
    ensures sound { IsSound parts.new }
{
    let mut calls = false;
    let steps = pass(
        &mut parts.store,
        &mut parts.regs,
        most,
        breakpoints,
        &mut calls,
    );
    parts.step += steps;
    if steps == most {
        return Advanced { steps, stop: None };
    }
    if steps > 0 && is_met(parts, breakpoints) {
        return Advanced { steps, stop: None };
    }
    let stop = next_step(parts, calls, bytes);
    Advanced {
        steps: steps + 1,
        stop,
    }
}
