// The machine of a session, after lines of the debugger.
ghost use Rattle.std.specs.Prelude.{◌≡◌, ◌<◌, ◌≤◌, ◌+◌, ◌^◌, [], Some, None, Ok, length, drop};
ghost use Rattle.module_text.specs.TextReader.Lines.{lines_of};
ghost use Rattle.session_text.specs.Canonical.{IsLawful};
ghost use Rattle.kernel_model.specs.KernelRecord.Ranges.{most_steps};
ghost use Rattle.tripos_machine.specs.State.{steps_of};
ghost use Rattle.tripos_machine.specs.Boot.{boot};
ghost use Rattle.debugger.specs.Debugged.{debugged};
ghost use Rattle.debugger.specs.MachineHistory.Pasts.{now_of};
ghost use Rattle.show_run.specs.Places.Sessions.{Gives, booted_state, checked_state, debugged_state, state_after};
ghost use Rattle.show_run.specs.declared.places.sessions.DebugEnd.TheVariants.{WantMemory};

use byte_streams::{NoSink, Output, SinkFault, WantMemory};
use debugger::{BadLine, History, check_lines, debug, debug_back, goes_back};
use module_text::TextEnd;
use session_text::{BootEnd, Session, read_front};
use std::alloc::{AllocError, AllocFailed, Global};
use tripos_machine::{Machine, boot};

/// Why there is no machine after the lines of a debugger.
#[derive(Clone, Copy, Debug)]
pub enum DebugEnd {
    /// The session, or a line of the debugger, is refused at this line of the text, counted from 1, with this code.
    Refused { line: u32, code: u32 },
    /// The session does not boot, by this line of it, with this code.
    NoBoot { line: u32, code: u32 },
    /// Memory could not be had.
    WantMemory,
}

impl<T: Drop> From<AllocFailed<T>> for DebugEnd {
    ghost from_gives = { λ _ e. e ≡ WantMemory };

    fn from(_: AllocFailed<T>) -> DebugEnd {
        DebugEnd::WantMemory
    }
}

impl From<AllocError> for DebugEnd {
    ghost from_gives = { λ _ e. e ≡ WantMemory };

    fn from(_: AllocError) -> DebugEnd {
        DebugEnd::WantMemory
    }
}

/// The machine of the session at the front of a text, once it has done what the lines after that ask for: the lines of `tripos debug`. What they
/// write goes nowhere. All lines are checked before the session boots.
pub fn debugged_machine(alloc: Global, text: &[u8]) -> Result<Machine, DebugEnd>
    requires { length text.now < 2 ^ 30 }
    ensures { Gives (λ m. m.state) result (debugged_state text.now) }
{
    match read_front(alloc, text) {
        Ok(front) => {
            let lines = text_behind(front.end as usize, text);
            checked_machine(alloc, &front.session, lines, front.lines + 1)
        }
        Err(TextEnd::Bad { line, code }) => Err(DebugEnd::Refused { line, code }),
        Err(TextEnd::WantMemory) => Err(DebugEnd::WantMemory),
    }
}

/// The text after a place.
pub(crate) fn text_behind(place: usize, text: &[u8]) -> &[u8]
    requires { place ≤ length text.now }
    ensures { result.now ≡ drop place text.now }
{
    &text[place..]
}

// The same, where the session is read. The first of the lines has this number.
fn checked_machine(
    alloc: Global,
    session: &Session,
    lines: &[u8],
    first: u32,
) -> Result<Machine, DebugEnd>
    requires lawful { IsLawful session.now }
    requires numbers { first + length lines.now < 2 ^ 32 }
    ensures { Gives (λ m. m.state) result (checked_state session.now first (lines_of lines.now)) }
{
    match check_lines(lines, first) {
        Ok(()) => booted_machine(alloc, session, lines),
        Err(BadLine { line, code }) => Err(DebugEnd::Refused { line, code }),
    }
}

// The same, where the lines are checked.
fn booted_machine(alloc: Global, session: &Session, lines: &[u8]) -> Result<Machine, DebugEnd>
    requires { IsLawful session.now }
    ensures { Gives (λ m. m.state) result
        (booted_state session.now.go (lines_of lines.now) (boot session.now)) }
{
    match boot(alloc, session) {
        Ok(machine) => machine_after(alloc, machine, lines, session.go),
        Err(BootEnd::Line { line, code }) => Err(DebugEnd::NoBoot { line, code }),
        Err(BootEnd::WantMemory) => Err(DebugEnd::WantMemory),
    }
}

// A machine after the lines. A history is made first, exactly where some line undoes steps.
fn machine_after(
    alloc: Global,
    machine: Machine,
    lines: &[u8],
    budget: u64,
) -> Result<Machine, DebugEnd>
    requires { steps_of machine.state + budget ≤ most_steps }
    ensures { Gives (λ m. m.state) result
        (Ok (state_after budget (lines_of lines.now) machine.state)) }
{
    if !goes_back(lines) {
        return machine_forward(machine, lines, budget);
    }
    match History::new(alloc, &machine) {
        Ok(mut history) => machine_both_ways(machine, &mut history, lines, budget),
        Err(WantMemory) => Err(DebugEnd::WantMemory),
    }
}

// The same, where no line undoes steps.
fn machine_forward(machine: Machine, lines: &[u8], budget: u64) -> Result<Machine, DebugEnd>
    requires { steps_of machine.state + budget ≤ most_steps }
    ensures { Gives (λ m. m.state) result
        (Ok (debugged budget (lines_of lines.now) machine.state None).after.state) }
{
    let mut machine = machine;
    match debug(&mut machine, lines, budget, &mut NoSink, &mut Output::new()) {
        Ok(()) => Ok(machine),
        Err(SinkFault) => unreachable!(),
    }
}

// The same, by a history that begins with the machine.
fn machine_both_ways(
    machine: Machine,
    history: &mut History,
    lines: &[u8],
    budget: u64,
) -> Result<Machine, DebugEnd>
    requires steps { steps_of machine.state + budget ≤ most_steps }
    requires begins { history.old ≡ record { past = []; now = now_of machine.state machine.keys } }
    ensures { Gives (λ m. m.state) result
        (Ok (debugged budget (lines_of lines.now) machine.state (Some [])).after.state) }
{
    let (machine, told) = debug_back(
        machine,
        history,
        lines,
        budget,
        &mut NoSink,
        &mut Output::new(),
    );
    match told {
        Ok(()) => Ok(machine),
        Err(SinkFault) => unreachable!(),
    }
}
