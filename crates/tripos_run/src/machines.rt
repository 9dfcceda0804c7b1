// The answer to a session, by a run of its machine.
ghost use Rattle.std.specs.Prelude.{◌≡◌, ◌≤◌, ◌+◌, ◌++◌, [], Some, true, IfOk, MatchResult};
ghost use Rattle.byte_streams.specs.Sinks.{FailsBySink};
ghost use Rattle.session_text.specs.Canonical.{IsLawful};
ghost use Rattle.kernel_model.specs.KernelRecord.Ranges.{most_steps};
ghost use Rattle.kernel_model.specs.KernelRecord.NotedEvents.{NotesAll};
ghost use Rattle.tripos_machine.specs.Runs.{end_of_run};
ghost use Rattle.tripos_machine.specs.Boot.{boot};
ghost use Rattle.tripos_machine.specs.State.{steps_of, stop_of};
ghost use Rattle.tripos_machine.specs.Step.{boot_events, quietly, run};
ghost use Rattle.program_answers.specs.TraceLog.Trails.{events_of};
ghost use Rattle.program_answers.specs.TraceLog.Traced.{lines_of};
ghost use Rattle.program_answers.specs.Answer.{Answers};
ghost use Rattle.tripos_run.specs.Answer.{closed_answer, end_after, machine_answer, run_answer};
ghost use Rattle.program_answers.specs.Cause.{HasFaultCause};
ghost use Rattle.program_answers.specs.Input.{IsTextEnd};
ghost use Rattle.tripos_run.specs.Input.{IsMachineEnd};
ghost use Rattle.tripos_run.specs.Private.TracedRun.{GivesLines, StopsAt};
ghost use Rattle.kernel_model.specs.KernelRecord.LoggedEvents.{LogsAll};

use crate::ends::{status_of, write_end};
use crate::reports::Report;
use crate::session_generator::{Tally, gather_summary};
use byte_streams::{NoSink, Output, Sink, SinkFault, pass_on};
use kernel_lists::{EventLog, NoLog};
use kernel_model::Stop;
use program_answers::trace_log::{TraceLog, TraceWords};
use program_answers::{Status, status_after, write_no_boot};
use session_text::{BootEnd, Session};
use std::alloc::Global;
use tripos_machine::{Machine, boot};

/// Boots a session, and runs its machine.
pub(crate) fn answer_session<K: Sink>(
    alloc: Global,
    report: Report,
    session: &Session,
    out: &mut K,
) -> Status
    requires { IsLawful session.now }
    ensures answer { Answers (machine_answer report session.now.go (boot session.now))
        (K.holds out.old) (K.holds out.new) result }
    ensures ends { IsTextEnd result }
    ensures cause { HasFaultCause Status.WriteFault (K.faults out.old) (K.faults out.new) result }
{
    match boot(alloc, session) {
        Ok(mut machine) => answer_machine(report, &mut machine, session.go, out),
        Err(BootEnd::Line { line, code }) => {
            status_after(write_no_boot(out, line, code), Status::NoBoot)
        }
        Err(BootEnd::WantMemory) => Status::WantMemory,
    }
}

// Runs a machine that was booted just now.
fn answer_machine<K: Sink>(report: Report, machine: &mut Machine, go: u64, out: &mut K) -> Status
    requires { steps_of machine.old.state + go ≤ most_steps }
    ensures answer { Answers (run_answer report
        (end_after (boot_events machine.old.state) (run go machine.old.state)))
        (K.holds out.old) (K.holds out.new) result }
    ensures ends { IsMachineEnd result }
    ensures cause { HasFaultCause Status.WriteFault (K.faults out.old) (K.faults out.new) result }
{
    match report {
        Report::Events => trace_machine(machine, go, out),
        Report::Sums(session_bytes) => sum_machine(session_bytes, machine, go, out),
        Report::Console | Report::Words => run_machine(report, machine, go, out),
    }
}

// Runs the machine for so many steps, and writes its console bytes; its events are kept nowhere.
fn run_machine<K: Sink>(report: Report, machine: &mut Machine, go: u64, out: &mut K) -> Status
    requires { steps_of machine.old.state + go ≤ most_steps }
    ensures answer { Answers (closed_answer report (run go machine.old.state).bytes
        (end_after (boot_events machine.old.state) (run go machine.old.state)))
        (K.holds out.old) (K.holds out.new) result }
    ensures ends { IsMachineEnd result }
    ensures cause { HasFaultCause Status.WriteFault (K.faults out.old) (K.faults out.new) result }
{
    let mut pending = Output::new();
    match machine.run(go, out, &mut pending, &mut NoLog) {
        Ok(stop) => write_run_end(report, machine, stop, out, &mut pending),
        Err(SinkFault) => Status::WriteFault,
    }
}

// Runs the machine for so many steps, and writes its events; its console bytes are kept nowhere.
fn trace_machine<K: Sink>(machine: &mut Machine, go: u64, out: &mut K) -> Status
    requires { steps_of machine.old.state + go ≤ most_steps }
    ensures answer { Answers (run_answer Report.Events
        (end_after (boot_events machine.old.state) (run go machine.old.state)))
        (K.holds out.old) (K.holds out.new) result }
    ensures ends { IsMachineEnd result }
    ensures cause { HasFaultCause Status.WriteFault (K.faults out.old) (K.faults out.new) result }
{
    match gather_events(machine, go, out) {
        Ok((mut pending, stop)) => {
            write_run_end(Report::Events, machine, stop, out, &mut pending)
        }
        Err(SinkFault) => Status::WriteFault,
    }
}

// Runs the machine for so many steps, and gathers a line for each event. The last of them are given back, and why the machine
// has stopped.
fn gather_events<K: Sink>(
    machine: &mut Machine,
    go: u64,
    out: &mut K,
) -> Result<(Output, Stop), SinkFault>
    requires { steps_of machine.old.state + go ≤ most_steps }
    ensures lines { GivesLines (K.holds out.old) (K.holds out.new)
        (lines_of (boot_events machine.old.state ++ (run go machine.old.state).events)) result }
    ensures end { IfOk result (λ given. StopsAt machine.new.state given.1
        (run go machine.old.state).state) }
    ensures cause { FailsBySink K.Sink out.old out.new result }
{
    let mut log = TraceLog::new(out, TraceWords, Output::new());
    let stop = trace_run(machine, go, &mut log);
    let pending = log.into_pending()?;
    Ok((pending, stop?))
}

// Notes the events of the boot and of the run, and says besides that the log writes where it did: its marks are still there.
fn trace_run<K: Sink>(
    machine: &mut Machine,
    go: u64,
    log: &mut TraceLog<K, TraceWords>,
) -> Result<Stop, SinkFault>
    requires { steps_of machine.old.state + go ≤ most_steps }
    ensures same_reference { log.new.out.ghost_name ≡ log.old.out.ghost_name }
    ensures same_first { K.holds log.new.first.value ≡ K.holds log.old.first.value }
    ensures same_faults { K.faults log.new.first.value ≡ K.faults log.old.first.value }
    ensures same_before { log.new.before.value ≡ log.old.before.value }
    ensures events { NotesAll (Some (events_of log.old.trail)) (Some (events_of log.new.trail))
        log.old.failed log.new.failed
        (boot_events machine.old.state ++ (run go machine.old.state).events) }
    ensures end { MatchResult result (λ stop. StopsAt machine.new.state stop
        (run go machine.old.state).state) (λ _. log.new.failed ≡ true) }
{
    note_run(machine, go, log)
}

// Notes the events of the boot, and then those of the run. `SinkFault` comes only where the log has failed.
fn note_run<L: EventLog>(machine: &mut Machine, go: u64, log: &mut L) -> Result<Stop, SinkFault>
    requires { steps_of machine.old.state + go ≤ most_steps }
    ensures events { LogsAll L.EventLog log.old log.new
        (boot_events machine.old.state ++ (run go machine.old.state).events) }
    ensures end { MatchResult result (λ stop. StopsAt machine.new.state stop
        (run go machine.old.state).state) (λ _. L.has_failed log.new ≡ true) }
{
    machine.note_boot(log);
    if log.failed() {
        return Err(SinkFault);
    }
    machine.run(go, &mut NoSink, &mut Output::new(), log)
}

// Runs the machine for so many steps, and sums up its console bytes; its events are kept nowhere.
fn sum_machine<K: Sink>(session_bytes: u64, machine: &mut Machine, go: u64, out: &mut K) -> Status
    requires { steps_of machine.old.state + go ≤ most_steps }
    ensures answer { Answers (run_answer (Report.Sums session_bytes)
        (end_after (boot_events machine.old.state) (run go machine.old.state)))
        (K.holds out.old) (K.holds out.new) result }
    ensures ends { IsMachineEnd result }
    ensures cause { HasFaultCause Status.WriteFault (K.faults out.old) (K.faults out.new) result }
{
    let (tally, stop) = sum_run(machine, go);
    let mut pending = Output::new();
    let report = Report::Sums(session_bytes);
    match gather_summary(session_bytes, &tally, out, &mut pending) {
        Ok(()) => write_run_end(report, machine, stop, out, &mut pending),
        Err(SinkFault) => Status::WriteFault,
    }
}

// Runs the machine for so many steps. The answer is the sums of its console bytes, and why it has stopped.
fn sum_run(machine: &mut Machine, go: u64) -> (Tally, Stop)
    requires { steps_of machine.old.state + go ≤ most_steps }
    ensures bytes { result.0 ≡ (run go machine.old.state).bytes }
    ensures end { StopsAt machine.new.state result.1 (run go machine.old.state).state }
{
    let mut tally = Tally::new();
    let mut pending = Output::new();
    match machine.run(go, &mut tally, &mut pending, &mut NoLog) {
        Ok(stop) => match pass_on(&mut tally, &mut pending) {
            Ok(()) => (tally, stop),
            Err(SinkFault) => unreachable!(),
        },
        Err(SinkFault) => unreachable!(),
    }
}

/// Writes what is pending, and how the run ended.
pub(crate) fn write_run_end<K: Sink>(
    report: Report,
    machine: &Machine,
    stop: Stop,
    out: &mut K,
    pending: &mut Output,
) -> Status
    requires { stop ≡ end_of_run (stop_of machine.now.state) }
    ensures answer { Answers
        (closed_answer report pending.old (end_after [] (quietly machine.now.state)))
        (K.holds out.old) (K.holds out.new) result }
    ensures ends { IsMachineEnd result }
    ensures cause { HasFaultCause Status.WriteFault (K.faults out.old) (K.faults out.new) result }
{
    let end = write_end(report, machine.steps(), stop, machine.store(), out, pending);
    status_after(end, status_of(stop))
}
