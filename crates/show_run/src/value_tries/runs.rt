// The tries of values, one run each.
ghost use Rattle.std.specs.Prelude.{◌≡◌, ◌+◌, ◌≤◌, List, ◌++◌, map, IfOk, OnOk};
ghost use Rattle.std.specs.List.{flat_map};
ghost use Rattle.module_text.specs.TextReader.Refusal.{refusal};
ghost use Rattle.kernel_model.specs.KernelRecord.Ranges.{most_steps};
ghost use Rattle.session_text.specs.Canonical.{IsLawful};
ghost use Rattle.tripos_machine.specs.Runs.{end_of_run};
ghost use Rattle.tripos_machine.specs.State.{steps_of, stop_of};
ghost use Rattle.tripos_machine.specs.Step.{run};
ghost use Rattle.show_run.specs.ValueTries.Groups.{Gathered};
ghost use Rattle.show_run.specs.ValueTries.Runs.{SameTries, ended_try, has_session, no_session, refused_try, session_try, try_of};
ghost use Rattle.show_run.specs.ValueTries.Spans.{values_of};
ghost use Rattle.show_run.specs.declared.value_tries.outcomes.Try.{Try};

use crate::value_tries::consoles::Console;
use crate::value_tries::groups::Gathering;
use crate::value_tries::outcomes::{Ending, Outcome, Try};
use crate::value_tries::settings::{Setting, is_in_range, is_there, set};
use crate::value_tries::spans::Span;
use byte_streams::{Output, SinkFault, pass_on};
use kernel_lists::NoLog;
use kernel_model::Stop;
use session_text::{BootEnd, Bytes, Session};
use std::alloc::{AllocError, Global};
use tripos_machine::{Machine, boot as boot_machine};

/// Tries all values of the spans, one after the other. The session has some value of these afterwards, and all else as it was.
pub fn try_all(
    alloc: Global,
    setting: Setting,
    spans: &[Span],
    session: &mut Session,
) -> Result<Gathering, AllocError>
    requires { IsLawful session.old }
    ensures { IfOk result (λ gathering. Gathered gathering
        (map (try_of setting session.old) (flat_map values_of spans.now))) }
{
    let mut gathering = Gathering::new(alloc);
    for span in spans {
        try_span(alloc, setting, *span, session, &mut gathering)?;
    }
    Ok(gathering)
}

// Tries the values of a span.
fn try_span(
    alloc: Global,
    setting: Setting,
    span: Span,
    session: &mut Session,
    gathering: &mut Gathering,
) -> Result<(), AllocError>
    requires { IsLawful session.old }
    ensures tries { OnOk result ((tries : List Try) → Gathered gathering.old tries
        → Gathered gathering.new (tries ++ map (try_of setting session.old) (values_of span))) }
    ensures same { SameTries setting session.old session.new }
{
    for value in span.first..=span.last {
        let one = try_value(alloc, setting, value, session)?;
        gathering.add(alloc, one)?;
    }
    Ok(())
}

// Sets a value anew, and runs the session, where there is one with this value.
fn try_value(
    alloc: Global,
    setting: Setting,
    value: u64,
    session: &mut Session,
) -> Result<Try, AllocError>
    requires { IsLawful session.old }
    ensures one { IfOk result (λ one. one ≡ try_of setting session.old value) }
    ensures same { SameTries setting session.old session.new }
{
    if !has_session(setting, value, session) {
        return Ok(no_session(alloc, value));
    }
    set(alloc, setting, value, session);
    try_session(alloc, value, session)
}

// Whether there is a session with this value.
fn has_session(setting: Setting, value: u64, session: &Session) -> bool
    ensures { result ≡ has_session setting session.now value }
{
    is_there(setting, session) && is_in_range(setting, value)
}

fn no_session(alloc: Global, value: u64) -> Try
    ensures { result ≡ no_session value }
{
    Try {
        value,
        steps: 0,
        outcome: Outcome {
            bytes: Bytes::new(Vec::new(alloc)),
            ending: Ending::NoSession,
        },
    }
}

// Boots a session, and runs its machine.
fn try_session(alloc: Global, value: u64, session: &Session) -> Result<Try, AllocError>
    requires { IsLawful session.now }
    ensures { IfOk result (λ one. one ≡ session_try value session.now) }
{
    match boot_machine(alloc, session) {
        Ok(mut machine) => try_machine(alloc, value, &mut machine, session.go),
        Err(BootEnd::Line { line, code }) => Ok(no_boot(alloc, value, line, code)),
        Err(BootEnd::WantMemory) => Err(AllocError),
    }
}

fn no_boot(alloc: Global, value: u64, line: u32, code: u32) -> Try
    ensures { result ≡ refused_try value (refusal line code) }
{
    Try {
        value,
        steps: 0,
        outcome: Outcome {
            bytes: Bytes::new(Vec::new(alloc)),
            ending: Ending::NoBoot { line, code },
        },
    }
}

// Runs a machine that was booted just now.
fn try_machine(alloc: Global, value: u64, machine: &mut Machine, go: u64) -> Result<Try, AllocError>
    requires { steps_of machine.old.state + go ≤ most_steps }
    ensures { IfOk result (λ one. one ≡ ended_try value (run go machine.old.state)) }
{
    let (bytes, stop) = run_machine(alloc, machine, go)?;
    let steps = machine.steps();
    let bytes = Bytes::new(bytes);
    let ending = Ending::Stopped(stop);
    let outcome = Outcome { bytes, ending };
    Ok(Try {
        value,
        steps,
        outcome,
    })
}

// Runs a machine. The answer is its console bytes, and why it has stopped.
fn run_machine(alloc: Global, machine: &mut Machine, go: u64) -> Result<(Vec<u8>, Stop), AllocError>
    requires { steps_of machine.old.state + go ≤ most_steps }
    ensures bytes { IfOk result (λ ran. ran.0.items ≡ (run go machine.old.state).bytes) }
    ensures stop { IfOk result (λ ran. ran.1 ≡ end_of_run (stop_of machine.new.state)) }
    ensures state { OnOk result (machine.new.state ≡ (run go machine.old.state).state) }
{
    let mut console = Console::new(alloc);
    let mut pending = Output::new();
    match machine.run(go, &mut console, &mut pending, &mut NoLog) {
        Ok(stop) => match pass_on(&mut console, &mut pending) {
            Ok(()) => Ok((console.bytes, stop)),
            Err(SinkFault) => Err(AllocError),
        },
        Err(SinkFault) => Err(AllocError),
    }
}
