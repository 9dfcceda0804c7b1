// The steps that write one word.
ghost use Rattle.std.specs.Option.{option_map};
ghost use Rattle.std.specs.Prelude.{◌≡◌, ◌+◌, ◌≤◌, ◌<◌, ◌∷◌, [], IfOk, None};
ghost use Rattle.byte_streams.specs.Pending.{Gathers};
ghost use Rattle.byte_streams.specs.Sinks.{FailsBySink, GathersFor};
ghost use Rattle.instruction_set.specs.Writes.{list_of};
ghost use Rattle.kernel_model.specs.KernelRecord.Ranges.{most_steps};
ghost use Rattle.tripos_machine.specs.State.{steps_of, stop_of};
ghost use Rattle.tripos_machine.specs.Step.{step};
ghost use Rattle.show_run.specs.StepLog.Calls.{call_seen};
ghost use Rattle.show_run.specs.WordWrites.{boot_write, change_part, lines_of_write, step_writes, word_then, writes_text, written_word};

use crate::step_log::boots::BOOT;
use crate::step_log::calls::{Call, gather_call};
use crate::step_log::guests::{call, gather_guest, moment};
use crate::step_log::moments::Moment;
use crate::step_log::writes::gather_write;
use byte_streams::{Output, Sink, SinkFault};
use instruction_set::Writes;
use kernel_lists::NoLog;
use tripos_machine::Machine;
use word_store::{add, word};

/// Gathers what the boot of a machine that has taken no step has written at an address, where the first step that is asked for is 0.
pub(crate) fn gather_boot_write<K: Sink>(
    address: u32,
    first: u64,
    machine: &Machine,
    out: &mut K,
    pending: &mut Output,
) -> Result<(), SinkFault>
    ensures text { GathersFor K.Sink out.old out.new pending.old pending.new
        (boot_write first address machine.now.state) result }
    ensures cause { FailsBySink K.Sink out.old out.new result }
{
    if first != 0 {
        return Ok(());
    }
    let w = word(machine.store(), address);
    if w == 0 {
        return Ok(());
    }
    gather_write(BOOT, address, 0, w, out, pending)
}

/// Takes at most n steps, up to one that stops the machine, and gathers how each writes the word at an address: the guest's instruction
/// and its write, or the call, if there is one, and the change. `SinkFault` comes only where the sink's count of faults rose; then a
/// prefix of what was pending, and of the lines after it, has gone to the sink.
pub(crate) fn gather_steps_writing<K: Sink>(
    address: u32,
    machine: &mut Machine,
    n: u64,
    out: &mut K,
    pending: &mut Output,
) -> Result<(), SinkFault>
    requires { steps_of machine.old.state + n ≤ most_steps }
    ensures text { GathersFor K.Sink out.old out.new pending.old pending.new
        (writes_text n address machine.old.state) result }
    ensures cause { FailsBySink K.Sink out.old out.new result }
{
    for _ in 0..n {
        if machine.stop().is_some() {
            return Ok(());
        }
        gather_step_writing(address, machine, out, pending)?;
    }
    Ok(())
}

/// Takes a step of a machine that has not stopped, and gathers how it writes the word at an address. `SinkFault` comes only where the sink's
/// count of faults rose; then a prefix of what was pending, and of the lines after it, has gone to the sink.
pub(crate) fn gather_step_writing<K: Sink>(
    address: u32,
    machine: &mut Machine,
    out: &mut K,
    pending: &mut Output,
) -> Result<(), SinkFault>
    requires goes { stop_of machine.old.state ≡ None }
    requires steps { steps_of machine.old.state < most_steps }
    ensures text { GathersFor K.Sink out.old out.new pending.old pending.new
        (step_writes address machine.old.state (step machine.old.state).state) result }
    ensures state { IfOk result (λ _. machine.new.state ≡ (step machine.old.state).state) }
    ensures cause { FailsBySink K.Sink out.old out.new result }
{
    let m = moment(machine);
    let call = call(machine);
    let written = written_word(address, machine.next_writes());
    let before = word(machine.store(), address);
    gather_instruction(m, address, written, machine, out, pending)?;
    machine.step(&mut NoLog);
    let after = word(machine.store(), address);
    gather_change(
        m,
        call,
        address,
        word_then(written, before),
        after,
        out,
        pending,
    )
}

// The word that these writes leave at the address, if one of them is there.
fn written_word(address: u32, writes: Writes) -> Option<u32>
    ensures { result ≡ written_word address (list_of writes) }
{
    match writes {
        Writes::Nothing => None,
        Writes::Word { at, word } => at_address(address, at, word),
        Writes::Frame {
            at,
            caller,
            next,
            function,
            argument,
        } => at_address(address, at, caller)
            .or(at_address(address, add(at, 1), next))
            .or(at_address(address, add(at, 2), function))
            .or(at_address(address, add(at, 3), argument)),
    }
}

// The word, where it is written at the address.
fn at_address(address: u32, at: u32, word: u32) -> Option<u32>
    ensures { result ≡ written_word address ((at, word) ∷ []) }
{
    if at == address { Some(word) } else { None }
}

// The word that is there after the instruction: the one that it has written, or the one before.
fn word_then(written: Option<u32>, before: u32) -> u32
    ensures { result ≡ word_then written before }
{
    match written {
        Some(word) => word,
        None => before,
    }
}

// The instruction and its write, where it writes the word.
fn gather_instruction<K: Sink>(
    m: Moment,
    address: u32,
    written: Option<u32>,
    machine: &Machine,
    out: &mut K,
    pending: &mut Output,
) -> Result<(), SinkFault>
    ensures text { GathersFor K.Sink out.old out.new pending.old pending.new
        (lines_of_write m address machine.now.state written) result }
    ensures cause { FailsBySink K.Sink out.old out.new result }
{
    match written {
        Some(new) => {
            gather_guest(m, machine, out, pending)?;
            gather_write(
                m,
                address,
                word(machine.store(), address),
                new,
                out,
                pending,
            )
        }
        None => Ok(()),
    }
}

// The call and the change, where the word is another.
fn gather_change<K: Sink>(
    m: Moment,
    call: Option<Call>,
    address: u32,
    old: u32,
    new: u32,
    out: &mut K,
    pending: &mut Output,
) -> Result<(), SinkFault>
    ensures text { GathersFor K.Sink out.old out.new pending.old pending.new
        (change_part m (option_map call_seen call) address old new) result }
    ensures cause { FailsBySink K.Sink out.old out.new result }
{
    if old == new {
        return Ok(());
    }
    gather_call(m, call, out, pending)?;
    gather_write(m, address, old, new, out, pending)
}
