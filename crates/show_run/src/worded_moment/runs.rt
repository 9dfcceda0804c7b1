// The run up to a moment, and its last steps once more.
ghost use Rattle.std.specs.Prelude.{◌≡◌, ◌≤◌, OnOk};
ghost use Rattle.session_text.specs.Canonical.{IsLawful};
ghost use Rattle.kernel_model.specs.KernelRecord.Ranges.{most_steps};
ghost use Rattle.tripos_machine.specs.State.{steps_of};
ghost use Rattle.show_run.specs.TypedWords.Runs.{Boots};

use crate::no_machines::{RunEnd, entries_of, machine_of, session_of, told_end};
use crate::single_steps::{former_store, take_step, take_unheard};
use crate::typed_words::gathered::Gathered;
use crate::typed_words::machines::machine_after;
use crate::worded_moment::requests::{Asked, Request, request_of};
use byte_streams::{Output, SinkFault};
use log_words::{StepLists, read_step};
use run_names::{PacketsOut, known_programs};
use session_text::Session;
use state_text::gather_state;
use state_words::trails::Trails;
use state_words::{Scene, View};
use std::alloc::{AllocError, Global};
use text_sinks::TextSink;
use tool_texts::ToolText;
use tripos_machine::Machine;

/// The state of the session that a bundle names, after the steps that it names, or the lists of its kernel then, in words; or why nothing is
/// told of it.
pub(crate) fn worded_moment(alloc: Global, bundle: &[u8]) -> Result<ToolText, AllocError> {
    match told_text(alloc, bundle) {
        Ok(bytes) => Ok(ToolText {
            is_wrong: false,
            bytes,
        }),
        Err(end) => told_end(alloc, b"state", end),
    }
}

// The words that a bundle asks for.
fn told_text(alloc: Global, bundle: &[u8]) -> Result<Vec<u8>, RunEnd> {
    let entries = entries_of(alloc, bundle)?;
    let request = request_of(entries.as_slice()).ok_or(RunEnd::NoRequest)?;
    let session = session_of(alloc, request.session)?;
    let mut machine = machine_of(alloc, &session)?;
    Ok(machine_text(alloc, request, &session, &mut machine)?)
}

// The words of a machine that was booted just now, after its steps.
fn machine_text(
    alloc: Global,
    request: Request,
    session: &Session,
    machine: &mut Machine,
) -> Result<Vec<u8>, AllocError>
    requires lawful { IsLawful session.now }
    requires boots { Boots session.now }
    requires begins { steps_of machine.old.state ≡ 0 }
    ensures { OnOk result (steps_of machine.new.state ≤ session.now.go) }
{
    let steps = request.at.unwrap_or(session.go).min(session.go);
    let mut out = PacketsOut::new(alloc);
    machine.note_boot(&mut out);
    take_unheard(steps, machine, &mut out)?;
    moment_text(alloc, request, session, machine, &out)
}

// The words of a machine after its steps, where these packets have not come back.
fn moment_text<'a>(
    alloc: Global,
    request: Request<'a>,
    session: &'a Session,
    machine: &'a Machine,
    out: &'a PacketsOut,
) -> Result<Vec<u8>, AllocError>
    requires lawful { IsLawful session.now }
    requires boots { Boots session.now }
    requires few { steps_of machine.now.state ≤ session.now.go }
{
    let programs = known_programs(alloc, session)?;
    let state = plain_state(alloc, machine)?;
    let view = View {
        name: request.name,
        session,
        programs: programs.as_slice(),
        is_cut: request.at.unwrap_or(session.go) < session.go,
        steps: machine.steps(),
        stop: machine.stop(),
        regs: machine.regs(),
        running: machine.running(),
        store: machine.store(),
        out,
        text: state.as_slice(),
    };
    let mut text = Vec::new(alloc);
    push_scene(alloc, request.asked, view, &mut text)?;
    Ok(text)
}

// The text of the state of a machine, in which no program has a name.
fn plain_state(alloc: Global, machine: &Machine) -> Result<Vec<u8>, AllocError> {
    let mut gathered = Gathered::new(alloc);
    match gather_state(machine, &[], &mut gathered.sink, &mut gathered.pending) {
        Ok(()) => gathered.take(alloc),
        Err(SinkFault) => Err(AllocError),
    }
}

// Adds what is asked for of a machine. The lists need none of its last steps.
fn push_scene(alloc: Global, asked: Asked, view: View, text: &mut Vec<u8>) -> Result<(), AllocError>
    requires lawful { IsLawful view.session.now }
    requires boots { Boots view.session.now }
    requires few { view.steps ≤ most_steps }
{
    let mut scene = Scene::new(alloc, view)?;
    match asked {
        Asked::State => {
            if scene.needs_steps() {
                look_back(alloc, view, scene.first_seen, &mut scene.trails)?;
            }
            scene.push_state(text)
        }
        Asked::Lists => scene.push_lists(text),
    }
}

// Looks through the steps from the first to the last that a machine has taken.
fn look_back(alloc: Global, view: View, first: u64, trails: &mut Trails) -> Result<(), AllocError>
    requires lawful { IsLawful view.session.now }
    requires boots { Boots view.session.now }
    requires few { view.steps ≤ most_steps }
{
    let before = first.saturating_sub(1).min(view.session.go);
    let mut machine = machine_after(alloc, view.session, before)?;
    let mut former = former_store(alloc, machine.store().size())?;
    let mut sink = TextSink::new(alloc);
    let mut pending = Output::new();
    let mut lists = StepLists::new(alloc);
    for _ in first..view.steps.saturating_add(1) {
        take_idle(alloc, view.steps, &mut machine)?;
        if machine.steps() >= view.steps || machine.stop().is_some() {
            return Ok(());
        }
        take_step(alloc, &mut machine, &mut former, &mut sink, &mut pending)?;
        if let Some(step) = read_step(sink.bytes.as_slice(), &mut lists)? {
            trails.note_step(&step, &lists)?;
        }
        sink.bytes.clear();
    }
    Ok(())
}

// Takes the steps from here on in which nobody runs and no device acts, up to the last step at most: nothing is to be kept of them.
fn take_idle(alloc: Global, last: u64, machine: &mut Machine) -> Result<(), AllocError>
    requires { last ≤ most_steps }
{
    if machine.stop().is_some() || machine.steps() >= last {
        return Ok(());
    }
    let left = last - machine.steps();
    take_unheard(
        machine.idle_steps().min(left),
        machine,
        &mut PacketsOut::new(alloc),
    )
}
