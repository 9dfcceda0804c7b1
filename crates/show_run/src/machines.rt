// What is shown of a machine's run.
ghost use Rattle.std.specs.Prelude.{◌≡◌, ◌≤◌, ◌+◌, ◌++◌, length};
ghost use Rattle.byte_streams.specs.Sinks.{FailsBySink, GathersFor, PrintsTo};
ghost use Rattle.kernel_model.specs.KernelRecord.Ranges.{most_steps};
ghost use Rattle.tripos_machine.specs.State.{steps_of, words_of};
ghost use Rattle.program_answers.specs.Answer.{Answers};
ghost use Rattle.program_answers.specs.Cause.{HasFaultCause};
ghost use Rattle.program_answers.specs.Input.{IsTextEnd};
ghost use Rattle.state_text.specs.StateText.{state_text};
ghost use Rattle.show_run.specs.ShownAnswers.{boot_part, log_of, shown, shown_answer, shown_text, skipped, shown_state, writes_of};
ghost use Rattle.show_run.specs.StepLog.StepLines.{log_text};

use crate::Show;
use crate::step_log::{gather_boot, gather_steps};
use crate::word_writes::{gather_boot_write, gather_steps_writing};
use byte_streams::{Output, Sink, SinkFault, pass_on};
use program_answers::{Status, status_after};
use state_text::{Program, gather_state};
use std::alloc::Global;
use tripos_machine::Machine;
use word_store::{NoStoreMemory, Store};

/// Takes the steps of a machine that was booted just now, at most so many, and shows what is asked for. Memory is taken for a log alone, and
/// before anything is written.
pub(crate) fn answer_shown<K: Sink>(
    alloc: Global,
    asked: Show,
    programs: &[Program],
    machine: &mut Machine,
    go: u64,
    out: &mut K,
) -> Status
    requires { steps_of machine.old.state + go ≤ most_steps }
    ensures answer { Answers (shown_answer (shown_text asked programs.now go machine.old.state))
        (K.holds out.old) (K.holds out.new) result }
    ensures ends { IsTextEnd result }
    ensures cause { HasFaultCause Status.WriteFault (K.faults out.old) (K.faults out.new) result }
{
    match asked {
        Show::State => {
            let shown = show_state(programs, machine, go, out);
            status_after(shown, Status::Done)
        }
        Show::Log { first, last } => answer_log(alloc, first, last, machine, go, out),
        Show::Writes {
            address,
            first,
            last,
        } => {
            let shown = show_writes(address, first, last, machine, go, out);
            status_after(shown, Status::Done)
        }
    }
}

// Takes all steps, and writes the state after them.
fn show_state<K: Sink>(
    programs: &[Program],
    machine: &mut Machine,
    go: u64,
    out: &mut K,
) -> Result<(), SinkFault>
    requires { steps_of machine.old.state + go ≤ most_steps }
    ensures text { PrintsTo K.Sink out.old out.new
        (shown_state programs.now go machine.old.state) result }
    ensures cause { FailsBySink K.Sink out.old out.new result }
{
    machine.run_unheard(go);
    write_state(programs, machine, out)
}

fn write_state<K: Sink>(
    programs: &[Program],
    machine: &Machine,
    out: &mut K,
) -> Result<(), SinkFault>
    ensures text { PrintsTo K.Sink out.old out.new
        (state_text programs.now machine.now.state) result }
    ensures cause { FailsBySink K.Sink out.old out.new result }
{
    let mut pending = Output::new();
    gather_state(machine, programs, out, &mut pending)?;
    pass_on(out, &mut pending)
}

// Writes what happened in the steps from the first to the last. Those before the first are taken without a word.
fn answer_log<K: Sink>(
    alloc: Global,
    first: u64,
    last: u64,
    machine: &mut Machine,
    go: u64,
    out: &mut K,
) -> Status
    requires { steps_of machine.old.state + go ≤ most_steps }
    ensures answer { Answers (shown_answer (log_of first last go machine.old.state))
        (K.holds out.old) (K.holds out.new) result }
    ensures ends { IsTextEnd result }
    ensures cause { HasFaultCause Status.WriteFault (K.faults out.old) (K.faults out.new) result }
{
    let before = skipped(first, go);
    let count = shown(first, last, go);
    machine.run_unheard(before);
    match Store::new(alloc, machine.store().size()) {
        Ok(mut former) => {
            let shown = show_log(first, count, machine, &mut former, out);
            status_after(shown, Status::Done)
        }
        Err(NoStoreMemory) => Status::WantMemory,
    }
}

// The boot, where the first step is 0, and then so many steps. The words of the other store, of as many words, are of no use before and after.
fn show_log<K: Sink>(
    first: u64,
    count: u64,
    machine: &mut Machine,
    former: &mut Store,
    out: &mut K,
) -> Result<(), SinkFault>
    requires steps { steps_of machine.old.state + count ≤ most_steps }
    requires size { length former.old ≡ length (words_of machine.old.state) }
    ensures text { PrintsTo K.Sink out.old out.new
        (boot_part first machine.old.state ++ log_text count machine.old.state) result }
    ensures cause { FailsBySink K.Sink out.old out.new result }
{
    let mut pending = Output::new();
    gather_log(first, count, machine, former, out, &mut pending)?;
    pass_on(out, &mut pending)
}

// The same, gathered.
fn gather_log<K: Sink>(
    first: u64,
    count: u64,
    machine: &mut Machine,
    former: &mut Store,
    out: &mut K,
    pending: &mut Output,
) -> Result<(), SinkFault>
    requires steps { steps_of machine.old.state + count ≤ most_steps }
    requires size { length former.old ≡ length (words_of machine.old.state) }
    ensures text { GathersFor K.Sink out.old out.new pending.old pending.new
        (boot_part first machine.old.state ++ log_text count machine.old.state) result }
    ensures cause { FailsBySink K.Sink out.old out.new result }
{
    gather_boot_part(first, machine, out, pending)?;
    gather_steps(machine, count, former, out, pending)
}

// The boot, where the first step is 0.
fn gather_boot_part<K: Sink>(
    first: u64,
    machine: &Machine,
    out: &mut K,
    pending: &mut Output,
) -> Result<(), SinkFault>
    ensures text { GathersFor K.Sink out.old out.new pending.old pending.new
        (boot_part first machine.now.state) result }
    ensures cause { FailsBySink K.Sink out.old out.new result }
{
    if first != 0 {
        return Ok(());
    }
    gather_boot(machine, out, pending)
}

// Writes the steps that write the word at an address, from the first to the last.
fn show_writes<K: Sink>(
    address: u32,
    first: u64,
    last: u64,
    machine: &mut Machine,
    go: u64,
    out: &mut K,
) -> Result<(), SinkFault>
    requires { steps_of machine.old.state + go ≤ most_steps }
    ensures text { PrintsTo K.Sink out.old out.new
        (writes_of address first last go machine.old.state) result }
    ensures cause { FailsBySink K.Sink out.old out.new result }
{
    let mut pending = Output::new();
    gather_all_writes(address, first, last, machine, go, out, &mut pending)?;
    pass_on(out, &mut pending)
}

// What the boot writes there, where the first step is 0, and then the steps.
fn gather_all_writes<K: Sink>(
    address: u32,
    first: u64,
    last: u64,
    machine: &mut Machine,
    go: u64,
    out: &mut K,
    pending: &mut Output,
) -> Result<(), SinkFault>
    requires { steps_of machine.old.state + go ≤ most_steps }
    ensures text { GathersFor K.Sink out.old out.new pending.old pending.new
        (writes_of address first last go machine.old.state) result }
    ensures cause { FailsBySink K.Sink out.old out.new result }
{
    gather_boot_write(address, first, machine, out, pending)?;
    let before = skipped(first, go);
    let count = shown(first, last, go);
    machine.run_unheard(before);
    gather_steps_writing(address, machine, count, out, pending)
}

// How many steps come before the first that is shown, of a run of so many.
fn skipped(first: u64, go: u64) -> u64
    ensures { result ≡ skipped first go }
{
    first.saturating_sub(1).min(go)
}

// How many steps are shown.
fn shown(first: u64, last: u64, go: u64) -> u64
    ensures { result ≡ shown first last go }
{
    last.min(go).saturating_sub(skipped(first, go))
}
