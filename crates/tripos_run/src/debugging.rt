// The answer to a session that is debugged.
ghost use Rattle.std.specs.Prelude.{◌≡◌, ◌<◌, ◌≤◌, ◌+◌, ◌^◌, [], Some, None, drop, length};
ghost use Rattle.module_text.specs.TextReader.Lines.{lines_of};
ghost use Rattle.session_text.specs.Canonical.{IsLawful};
ghost use Rattle.kernel_model.specs.KernelRecord.Ranges.{most_steps};
ghost use Rattle.tripos_machine.specs.Boot.{boot};
ghost use Rattle.tripos_machine.specs.State.{steps_of};
ghost use Rattle.debugger.specs.Debugged.{debugged};
ghost use Rattle.debugger.specs.MachineHistory.Pasts.{now_of};
ghost use Rattle.program_answers.specs.Answer.{Answers};
ghost use Rattle.tripos_run.specs.Answer.{checked_answer, debugging_answer, first_past, lines_answer, told_answer};
ghost use Rattle.program_answers.specs.Cause.{HasFaultCause};
ghost use Rattle.program_answers.specs.Input.{IsTextEnd};
ghost use Rattle.tripos_run.specs.Input.{IsMachineEnd};

use crate::machines::write_run_end;
use crate::reports::Report;
use byte_streams::{Output, Sink, SinkFault, WantMemory};
use debugger::{BadLine, History, check_lines, debug, debug_back, goes_back};
use kernel_model::Stop;
use module_text::TextEnd;
use program_answers::{Status, status_after, write_no_boot, write_refused};
use session_text::{BootEnd, Session, read_front};
use std::alloc::Global;
use tripos_machine::{Machine, boot};

/// Boots the session at the front of a text, and does with its machine what the lines after it ask for. They are checked before.
pub(crate) fn answer_debugging<K: Sink>(alloc: Global, text: &[u8], out: &mut K) -> Status
    requires { length text.now < 2 ^ 30 }
    ensures answer { Answers (debugging_answer text.now) (K.holds out.old) (K.holds out.new) result }
    ensures ends { IsTextEnd result }
    ensures cause { HasFaultCause Status.WriteFault (K.faults out.old) (K.faults out.new) result }
{
    match read_front(alloc, text) {
        Ok(front) => {
            let lines = text_behind(front.end as usize, text);
            answer_checked(alloc, &front.session, lines, front.lines + 1, out)
        }
        Err(TextEnd::Bad { line, code }) => {
            status_after(write_refused(out, line, code), Status::Refused)
        }
        Err(TextEnd::WantMemory) => Status::WantMemory,
    }
}

// The text after a place.
fn text_behind(place: usize, text: &[u8]) -> &[u8]
    requires { place ≤ length text.now }
    ensures { result.now ≡ drop place text.now }
{
    &text[place..]
}

// Checks the lines, of which the first has this number, and then does what they ask for.
fn answer_checked<K: Sink>(
    alloc: Global,
    session: &Session,
    lines: &[u8],
    first: u32,
    out: &mut K,
) -> Status
    requires lawful { IsLawful session.now }
    requires numbers { first + length lines.now < 2 ^ 32 }
    ensures answer { Answers (checked_answer session.now first (lines_of lines.now))
        (K.holds out.old) (K.holds out.new) result }
    ensures ends { IsTextEnd result }
    ensures cause { HasFaultCause Status.WriteFault (K.faults out.old) (K.faults out.new) result }
{
    match check_lines(lines, first) {
        Ok(()) => answer_lines(alloc, session, lines, out),
        Err(BadLine { line, code }) => {
            status_after(write_refused(out, line, code), Status::Refused)
        }
    }
}

// Boots the session, and does with its machine what the lines ask for.
fn answer_lines<K: Sink>(alloc: Global, session: &Session, lines: &[u8], out: &mut K) -> Status
    requires { IsLawful session.now }
    ensures answer { Answers (lines_answer session.now.go (lines_of lines.now) (boot session.now))
        (K.holds out.old) (K.holds out.new) result }
    ensures ends { IsTextEnd result }
    ensures cause { HasFaultCause Status.WriteFault (K.faults out.old) (K.faults out.new) result }
{
    match boot(alloc, session) {
        Ok(machine) => debug_machine(alloc, machine, lines, session.go, out),
        Err(BootEnd::Line { line, code }) => {
            status_after(write_no_boot(out, line, code), Status::NoBoot)
        }
        Err(BootEnd::WantMemory) => Status::WantMemory,
    }
}

// Does with a machine what the lines ask for. A history is made first, exactly where some line undoes steps.
fn debug_machine<K: Sink>(
    alloc: Global,
    machine: Machine,
    lines: &[u8],
    budget: u64,
    out: &mut K,
) -> Status
    requires { steps_of machine.state + budget ≤ most_steps }
    ensures answer { let lines = lines_of lines.now in
        Answers (told_answer (debugged budget lines machine.state (first_past lines)))
        (K.holds out.old) (K.holds out.new) result }
    ensures ends { IsTextEnd result }
    ensures cause { HasFaultCause Status.WriteFault (K.faults out.old) (K.faults out.new) result }
{
    if !goes_back(lines) {
        let mut machine = machine;
        return debug_forward(&mut machine, lines, budget, out);
    }
    match History::new(alloc, &machine) {
        Ok(mut history) => debug_both_ways(machine, &mut history, lines, budget, out),
        Err(WantMemory) => Status::WantMemory,
    }
}

fn debug_forward<K: Sink>(machine: &mut Machine, lines: &[u8], budget: u64, out: &mut K) -> Status
    requires { steps_of machine.old.state + budget ≤ most_steps }
    ensures answer { Answers
        (told_answer (debugged budget (lines_of lines.now) machine.old.state None))
        (K.holds out.old) (K.holds out.new) result }
    ensures ends { IsMachineEnd result }
    ensures cause { HasFaultCause Status.WriteFault (K.faults out.old) (K.faults out.new) result }
{
    let mut pending = Output::new();
    match debug(machine, lines, budget, out, &mut pending) {
        Ok(()) => {
            let stop = machine.stop().unwrap_or(Stop::Steps);
            write_run_end(Report::Console, machine, stop, out, &mut pending)
        }
        Err(SinkFault) => Status::WriteFault,
    }
}

fn debug_both_ways<K: Sink>(
    machine: Machine,
    history: &mut History,
    lines: &[u8],
    budget: u64,
    out: &mut K,
) -> Status
    requires steps { steps_of machine.state + budget ≤ most_steps }
    requires begins { history.old ≡ record { past = []; now = now_of machine.state machine.keys } }
    ensures answer { Answers
        (told_answer (debugged budget (lines_of lines.now) machine.state (Some [])))
        (K.holds out.old) (K.holds out.new) result }
    ensures ends { IsMachineEnd result }
    ensures cause { HasFaultCause Status.WriteFault (K.faults out.old) (K.faults out.new) result }
{
    let mut pending = Output::new();
    let (machine, told) = debug_back(machine, history, lines, budget, out, &mut pending);
    match told {
        Ok(()) => {
            let stop = machine.stop().unwrap_or(Stop::Steps);
            write_run_end(Report::Console, &machine, stop, out, &mut pending)
        }
        Err(SinkFault) => Status::WriteFault,
    }
}
