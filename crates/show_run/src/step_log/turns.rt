// What happens as a step is taken.
ghost use Rattle.std.specs.List.{flat_map};
ghost use Rattle.std.specs.Prelude.{◌≡◌, ◌<◌, [], IfOk, List, None, Some, false, is_some, length, true};
ghost use Rattle.byte_streams.specs.Pending.{Gathers};
ghost use Rattle.byte_streams.specs.Sinks.{FailsBySink, GathersFor};
ghost use Rattle.kernel_lists.specs.declared.packet_queue.events.KernelEvent.{KernelEvent};
ghost use Rattle.kernel_model.specs.KernelRecord.NotedEvents.{NotesAll};
ghost use Rattle.kernel_model.specs.KernelRecord.Ranges.{most_steps};
ghost use Rattle.program_answers.specs.TraceLog.Trails.{events_of};
ghost use Rattle.tripos_machine.specs.State.{steps_of, stop_of, words_of};
ghost use Rattle.tripos_machine.specs.Step.{step};
ghost use Rattle.show_run.specs.StepLog.Events.{event_line};
ghost use Rattle.show_run.specs.StepLog.Packets.{told_of};
ghost use Rattle.show_run.specs.StepLog.StepLines.{before_seen, turn_lines};
ghost use Rattle.show_run.specs.StepLog.Writes.{is_resident, may_change};

use crate::step_log::before::Before;
use crate::step_log::event_logs::StepEvents;
use crate::step_log::moments::Moment;
use crate::step_log::packets::{MOST_TOLD, gather_told};
use crate::step_log::writes::{gather_changed, keep_words};
use arrayvec::ArrayVec;
use byte_streams::{Output, Sink, SinkFault};
use kernel_lists::{FIRST_GUEST, NoLog};
use std::mem;
use tripos_machine::Machine;
use word_store::Store;

/// Takes the next step of a machine that has not stopped, and gathers what happens as it is taken: its events, the packets that were
/// accepted, and the words that change beside those that the instruction writes. The words of the other store, of as many words, are
/// of no use before and after. `SinkFault` comes only where the sink's count of faults rose; then a prefix of what was pending, and of
/// the lines after it, has gone to the sink.
pub(crate) fn gather_turn<K: Sink>(
    m: Moment,
    before: Before,
    former: &mut Store,
    machine: &mut Machine,
    out: &mut K,
    pending: &mut Output,
) -> Result<(), SinkFault>
    requires goes { stop_of machine.old.state ≡ None }
    requires steps { steps_of machine.old.state < most_steps }
    requires size { length former.old ≡ length (words_of machine.old.state) }
    ensures text { GathersFor K.Sink out.old out.new pending.old pending.new
        (turn_lines m (before_seen before) machine.old.state (step machine.old.state)) result }
    ensures state { IfOk result (λ _. machine.new.state ≡ (step machine.old.state).state) }
    ensures output { IfOk result (λ _. machine.new.output ≡ (step machine.old.state).bytes) }
    ensures size { length former.new ≡ length former.old }
    ensures cause { FailsBySink K.Sink out.old out.new result }
{
    if take_quiet_step(m, before, machine) {
        return Ok(());
    }
    gather_full_turn(m, before, former, machine, out, pending)
}

// The same, whatever happens in the step.
fn gather_full_turn<K: Sink>(
    m: Moment,
    before: Before,
    former: &mut Store,
    machine: &mut Machine,
    out: &mut K,
    pending: &mut Output,
) -> Result<(), SinkFault>
    requires steps { steps_of machine.old.state < most_steps }
    requires size { length former.old ≡ length (words_of machine.old.state) }
    ensures text { GathersFor K.Sink out.old out.new pending.old pending.new
        (turn_lines m (before_seen before) machine.old.state (step machine.old.state)) result }
    ensures state { IfOk result (λ _. machine.new.state ≡ (step machine.old.state).state) }
    ensures output { IfOk result (λ _. machine.new.output ≡ (step machine.old.state).bytes) }
    ensures size { length former.new ≡ length former.old }
    ensures cause { FailsBySink K.Sink out.old out.new result }
{
    keep_words(former, machine);
    let told = take_step(m, machine, out, pending)?;
    gather_told(m, told.as_slice(), machine.store(), out, pending)?;
    if !may_change(m, before, &told) {
        return Ok(());
    }
    gather_changed(m, former, machine, out, pending)
}

// Whether a step with this call, in which this task runs, may change plain words beside its instruction: by its call, in a resident's turn,
// or where it has an event.
fn may_change(m: Moment, before: Before, told: &ArrayVec<Option<u32>, MOST_TOLD>) -> bool
    ensures { (events : List KernelEvent) → told.now.items ≡ told_of events
        → result ≡ may_change (before_seen before).call m.task events }
{
    if before.call.is_some() {
        return true;
    }
    if is_resident(m.task) {
        return true;
    }
    !told.is_empty()
}

// Takes the next step, if nothing happens in it but that a guest executes an instruction, or nobody runs and no device acts. Else it
// is not taken, and the answer is false.
fn take_quiet_step(m: Moment, before: Before, machine: &mut Machine) -> bool
    requires goes { stop_of machine.old.state ≡ None }
    requires steps { steps_of machine.old.state < most_steps }
    ensures uncalled { result ≡ true → is_some (before_seen before).call ≡ false }
    ensures guest { result ≡ true → is_resident m.task ≡ false }
    ensures quiet { result ≡ true → (step machine.old.state).events ≡ [] }
    ensures state { result ≡ true → machine.new.state ≡ (step machine.old.state).state }
    ensures output { result ≡ true → machine.new.output ≡ (step machine.old.state).bytes }
    ensures stays { result ≡ false → machine.new.state ≡ machine.old.state }
{
    if before.call.is_some() {
        return false;
    }
    if is_resident(m.task) {
        return false;
    }
    match machine.execute() {
        Some(_) => true,
        None => take_idle_step(machine),
    }
}

// Takes the next step, if nobody runs and no device acts in it.
fn take_idle_step(machine: &mut Machine) -> bool
    requires goes { stop_of machine.old.state ≡ None }
    requires steps { steps_of machine.old.state < most_steps }
    ensures quiet { result ≡ true → (step machine.old.state).events ≡ [] }
    ensures state { result ≡ true → machine.new.state ≡ (step machine.old.state).state }
    ensures output { result ≡ true → machine.new.output ≡ (step machine.old.state).bytes }
    ensures stays { result ≡ false → machine.new.state ≡ machine.old.state }
{
    if machine.idle_steps() == 0 {
        return false;
    }
    machine.step(&mut NoLog);
    true
}

// Whether the number is that of a resident.
fn is_resident(id: u32) -> bool
    ensures { result ≡ is_resident id }
{
    0 < id && id < FIRST_GUEST
}

// Takes a step, and gathers the lines of its events as they come. The answer has the packets that the first of them accepted.
fn take_step<K: Sink>(
    m: Moment,
    machine: &mut Machine,
    out: &mut K,
    pending: &mut Output,
) -> Result<ArrayVec<Option<u32>, MOST_TOLD>, SinkFault>
    requires { steps_of machine.old.state < most_steps }
    ensures text { GathersFor K.Sink out.old out.new pending.old pending.new
        (flat_map (event_line m) (step machine.old.state).events) result }
    ensures state { machine.new.state ≡ (step machine.old.state).state }
    ensures output { machine.new.output ≡ (step machine.old.state).bytes }
    ensures told { IfOk result (λ told. told.items ≡ told_of (step machine.old.state).events) }
    ensures cause { FailsBySink K.Sink out.old out.new result }
{
    let mut log = StepEvents::new(out, m, mem::replace(pending, Output::new()));
    note_step(machine, &mut log);
    let (rest, told) = log.into_told();
    match rest {
        Ok(rest) => {
            *pending = rest;
            Ok(told)
        }
        Err(SinkFault) => Err(SinkFault),
    }
}

// Notes the events of a step, and says besides that the log writes where and what it did: its marks are still there.
fn note_step<K: Sink>(machine: &mut Machine, log: &mut StepEvents<K>)
    requires { steps_of machine.old.state < most_steps }
    ensures state { machine.new.state ≡ (step machine.old.state).state }
    ensures output { machine.new.output ≡ (step machine.old.state).bytes }
    ensures same_reference { log.new.out.ghost_name ≡ log.old.out.ghost_name }
    ensures same_first { K.holds log.new.first.value ≡ K.holds log.old.first.value }
    ensures same_faults { K.faults log.new.first.value ≡ K.faults log.old.first.value }
    ensures same_before { log.new.before.value ≡ log.old.before.value }
    ensures same_moment { log.new.moment ≡ log.old.moment }
    ensures events { NotesAll (Some (events_of log.old.trail))
        (Some (events_of log.new.trail)) log.old.failed log.new.failed
        (step machine.old.state).events }
{
    machine.step(log);
}
