// The run whose steps are told.
ghost use Rattle.std.specs.Prelude.{◌≡◌, ◌+◌, ◌-◌, ◌<◌, ◌≤◌, max, IfOk, OnOk};
ghost use Rattle.kernel_model.specs.KernelRecord.Ranges.{most_steps};
ghost use Rattle.tripos_machine.specs.State.{steps_of};
ghost use Rattle.show_run.specs.WordedLog.{IsWindow, window_end};

use crate::no_machines::{RunEnd, entries_of, machine_of, session_of, told_end};
use crate::single_steps::{former_store, take_step, take_unheard};
use crate::step_log::gather_boot;
use crate::worded_log::requests::{Request, request_of};
use byte_streams::{Output, pass_on};
use log_words::{StepLists, Teller, Wanted, read_step};
use run_names::known_programs;
use session_text::Session;
use std::alloc::{AllocError, Global};
use text_sinks::TextSink;
use tool_texts::Said::{Bytes, Number};
use tool_texts::{ToolText, push_sentence};
use tripos_machine::Machine;
use word_store::Store;

/// The most steps that are told where nobody says up to which.
const MOST_TOLD: u64 = 1_000_000;

/// Which steps are told.
#[derive(Clone, Copy)]
struct Window {
    /// The first step, from 1.
    first: u64,
    /// The last that may be told.
    last: u64,
    /// Whether there may be more, of which nobody has said that they are not to be told.
    is_cut: bool,
}

/// What happened in the steps of the session that a bundle names, in words, or why nothing is told of it.
pub(crate) fn worded_log(alloc: Global, bundle: &[u8]) -> Result<ToolText, AllocError> {
    match told_text(alloc, bundle) {
        Ok(bytes) => Ok(ToolText {
            is_wrong: false,
            bytes,
        }),
        Err(end) => told_end(alloc, b"log", end),
    }
}

// The text of the log that a bundle asks for.
fn told_text(alloc: Global, bundle: &[u8]) -> Result<Vec<u8>, RunEnd> {
    let entries = entries_of(alloc, bundle)?;
    let request = request_of(entries.as_slice()).ok_or(RunEnd::NoRequest)?;
    let session = session_of(alloc, request.session)?;
    let window = window_of(request, session.go)?;
    let mut machine = machine_of(alloc, &session)?;
    machine_text(alloc, request, &session, window, &mut machine)
}

// Which steps of a run of so many are told.
fn window_of(request: Request, go: u64) -> Result<Window, RunEnd>
    ensures { IfOk result (IsWindow go) }
{
    let first = request.first.max(1);
    if first > go.max(1) {
        return Err(RunEnd::TooLate { first, last: go });
    }
    let last = request.last.unwrap_or(go).min(go);
    if last < first && first != 1 {
        return Err(RunEnd::Backwards);
    }
    let most = first.saturating_add(MOST_TOLD - 1);
    let is_cut = request.last.is_none() && last > most;
    Ok(Window {
        first,
        last: if is_cut { most } else { last },
        is_cut,
    })
}

// The text of the log of a machine that was booted just now.
fn machine_text(
    alloc: Global,
    request: Request,
    session: &Session,
    window: Window,
    machine: &mut Machine,
) -> Result<Vec<u8>, RunEnd>
    requires begins { steps_of machine.old.state ≡ 0 }
    requires window { IsWindow session.now.go window }
    requires few { session.now.go ≤ most_steps }
    ensures { OnOk result (steps_of machine.new.state ≤ session.now.go) }
{
    let programs = known_programs(alloc, session)?;
    let wanted = Wanted::new(alloc, request.task, request.kinds)?;
    let mut teller = Teller::new(alloc, session, wanted, programs.as_slice())?;
    let mut sink = TextSink::new(alloc);
    go_before(window, machine, &mut teller)?;
    teller.find_modules(machine.store())?;
    let mut tasks = Vec::new(alloc);
    teller.push_tasks(&mut tasks, machine.store(), window.first)?;
    tell_boot(alloc, window, machine, &mut sink, &mut teller)?;
    tell_steps(alloc, window, machine, &mut sink, &mut teller)?;
    let mut text = Vec::new(alloc);
    push_note(&mut text, window, machine)?;
    push_head(&mut text, request, session, window, machine)?;
    push_sentence(
        &mut text,
        &[
            Bytes(tasks.as_slice()),
            Bytes(b"  step  tick task      pc  kind     what\n"),
            Bytes(teller.text.as_slice()),
        ],
    )?;
    Ok(text)
}

// Takes the steps before the first that is told, and learns which packets are out then.
fn go_before(window: Window, machine: &mut Machine, teller: &mut Teller) -> Result<(), RunEnd>
    requires begins { steps_of machine.old.state ≡ 0 }
    requires few { window.first ≤ most_steps + 1 }
    ensures { OnOk result (steps_of machine.new.state ≤ window.first - 1) }
{
    let before = window.first.saturating_sub(1);
    if before == 0 {
        return Ok(());
    }
    machine.note_boot(&mut teller.out);
    take_unheard(before, machine, &mut teller.out)?;
    if machine.steps() < before || machine.stop().is_some() {
        return Err(RunEnd::Stopped {
            first: window.first,
            last: machine.steps(),
        });
    }
    Ok(())
}

// Tells the boot, where the first step is.
fn tell_boot(
    alloc: Global,
    window: Window,
    machine: &Machine,
    sink: &mut TextSink,
    teller: &mut Teller,
) -> Result<(), AllocError> {
    if window.first > 1 {
        return Ok(());
    }
    let mut pending = Output::new();
    let gathered = gather_boot(machine, sink, &mut pending);
    if gathered.is_err() || pass_on(sink, &mut pending).is_err() {
        return Err(AllocError);
    }
    let mut lists = StepLists::new(alloc);
    tell_lines(machine.store(), sink, &mut lists, teller)
}

// Tells the steps up to the last.
fn tell_steps(
    alloc: Global,
    window: Window,
    machine: &mut Machine,
    sink: &mut TextSink,
    teller: &mut Teller,
) -> Result<(), AllocError>
    requires begins { steps_of machine.old.state ≤ window_end window }
    requires few { window.last ≤ most_steps }
    ensures { OnOk result (steps_of machine.new.state ≤ window_end window) }
{
    let mut former = former_store(alloc, machine.store().size())?;
    let mut pending = Output::new();
    let mut lists = StepLists::new(alloc);
    for turn in window.first..window.last.saturating_add(1) {
        if machine.stop().is_some() || machine.steps() >= window.last {
            return Ok(());
        }
        take_step(alloc, machine, &mut former, sink, &mut pending)?;
        tell_lines(machine.store(), sink, &mut lists, teller)?;
    }
    Ok(())
}

// Tells the step whose lines the sink has, and takes them out of it.
fn tell_lines(
    store: &Store,
    sink: &mut TextSink,
    lists: &mut StepLists,
    teller: &mut Teller,
) -> Result<(), AllocError> {
    let step = read_step(sink.bytes.as_slice(), lists)?;
    if let Some(step) = step {
        teller.tell_step(&step, lists, store)?;
    }
    sink.bytes.clear();
    Ok(())
}

// The note that not all steps are told, where it is so.
fn push_note(text: &mut Vec<u8>, window: Window, machine: &Machine) -> Result<(), AllocError> {
    if !window.is_cut || machine.stop().is_some() {
        return Ok(());
    }
    push_sentence(
        text,
        &[
            Bytes(b"log: note: steps "),
            Number(window.first),
            Bytes(b" to "),
            Number(window.last),
            Bytes(b" are shown; --from and --to show others\n"),
        ],
    )
}

// The first line.
fn push_head(
    text: &mut Vec<u8>,
    request: Request,
    session: &Session,
    window: Window,
    machine: &Machine,
) -> Result<(), AllocError> {
    push_sentence(
        text,
        &[
            Bytes(request.name),
            Bytes(b": steps "),
            Number(window.first),
            Bytes(b" to "),
            Number(machine.steps()),
        ],
    )?;
    if session.bare {
        return push_sentence(text, &[Bytes(b", a bare machine\n")]);
    }
    push_sentence(
        text,
        &[
            Bytes(b", a tick every "),
            Number(u64::from(session.period)),
            Bytes(b" steps\n"),
        ],
    )
}
