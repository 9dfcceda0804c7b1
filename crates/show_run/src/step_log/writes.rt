// The words that a step writes.
ghost use Rattle.std.specs.Fmt.{signed_decimal};
ghost use Rattle.std.specs.Prelude.{◌≡◌, length, slice_index};
ghost use Rattle.byte_streams.specs.Pending.{Gathers};
ghost use Rattle.byte_streams.specs.Pieces.{text_of};
ghost use Rattle.byte_streams.specs.Sinks.{FailsBySink, GathersFor};
ghost use Rattle.word_store.specs.Arithmetic.{signed};
ghost use Rattle.instruction_set.specs.Writes.{list_of};
ghost use Rattle.tripos_machine.specs.GuestWrites.{guest_writes, is_kernels};
ghost use Rattle.tripos_machine.specs.State.{words_of};
ghost use Rattle.show_run.specs.StepLog.Writes.{changed_line, changed_lines, words_after_instruction, write_line, written_line, written_lines};

use crate::step_log::moments::{Moment, gather_line};
use byte_streams::Piece::{Decimal, Signed, Text};
use byte_streams::{Output, Piece, Sink, SinkFault};
use instruction_set::Writes;
use instruction_set::writes::write_all;
use tripos_machine::Machine;
use word_store::{Store, add, signed, word};

/// Gathers the line of the word at an address, as it was and as it is.
pub(crate) fn gather_write<K: Sink>(
    m: Moment,
    a: u32,
    old: u32,
    new: u32,
    out: &mut K,
    pending: &mut Output,
) -> Result<(), SinkFault>
    ensures text { GathersFor K.Sink out.old out.new pending.old pending.new
        (write_line m a old new) result }
    ensures cause { FailsBySink K.Sink out.old out.new result }
{
    gather_line(
        m,
        &[
            Text(b"write "),
            Decimal(u64::from(a)),
            Text(b" "),
            number(old),
            Text(b" -> "),
            number(new),
        ],
        out,
        pending,
    )
}

/// Gathers a line for each word that the guest's next instruction writes.
pub(crate) fn gather_instruction_writes<K: Sink>(
    m: Moment,
    machine: &Machine,
    out: &mut K,
    pending: &mut Output,
) -> Result<(), SinkFault>
    ensures text { GathersFor K.Sink out.old out.new pending.old pending.new
        (written_lines m (words_of machine.now.state) (guest_writes machine.now.state)) result }
    ensures cause { FailsBySink K.Sink out.old out.new result }
{
    gather_writes(m, machine.next_writes(), machine.store(), out, pending)
}

// A line for each of these, which are written over the words of a store.
fn gather_writes<K: Sink>(
    m: Moment,
    writes: Writes,
    store: &Store,
    out: &mut K,
    pending: &mut Output,
) -> Result<(), SinkFault>
    ensures text { GathersFor K.Sink out.old out.new pending.old pending.new
        (written_lines m store.now (list_of writes)) result }
    ensures cause { FailsBySink K.Sink out.old out.new result }
{
    match writes {
        Writes::Nothing => Ok(()),
        Writes::Word { at, word } => gather_each(m, &[(at, word)], store, out, pending),
        Writes::Frame {
            at,
            caller,
            next,
            function,
            argument,
        } => gather_each(
            m,
            &[
                (at, caller),
                (add(at, 1), next),
                (add(at, 2), function),
                (add(at, 3), argument),
            ],
            store,
            out,
            pending,
        ),
    }
}

// A line for each address and its word.
fn gather_each<K: Sink>(
    m: Moment,
    writes: &[(u32, u32)],
    store: &Store,
    out: &mut K,
    pending: &mut Output,
) -> Result<(), SinkFault>
    ensures text { GathersFor K.Sink out.old out.new pending.old pending.new
        (written_lines m store.now writes.now) result }
    ensures cause { FailsBySink K.Sink out.old out.new result }
{
    for write in writes {
        gather_written(m, *write, store, out, pending)?;
    }
    Ok(())
}

// The line of an address and its word.
fn gather_written<K: Sink>(
    m: Moment,
    write: (u32, u32),
    store: &Store,
    out: &mut K,
    pending: &mut Output,
) -> Result<(), SinkFault>
    ensures text { GathersFor K.Sink out.old out.new pending.old pending.new
        (written_line m store.now write) result }
    ensures cause { FailsBySink K.Sink out.old out.new result }
{
    gather_write(m, write.0, word(store, write.0), write.1, out, pending)
}

/// Keeps the words of the store as they are after the instruction of the next step, before all else that happens in the step.
pub(crate) fn keep_words(former: &mut Store, machine: &Machine)
    requires { length former.old ≡ length (words_of machine.now.state) }
    ensures { former.new ≡ words_after_instruction machine.now.state }
{
    former.copy_from(machine.store());
    write_all(former, machine.next_writes());
}

/// Gathers a line for each word that is another than the one that was kept, where it is not the kernel's.
pub(crate) fn gather_changed<K: Sink>(
    m: Moment,
    former: &Store,
    machine: &Machine,
    out: &mut K,
    pending: &mut Output,
) -> Result<(), SinkFault>
    ensures text { GathersFor K.Sink out.old out.new pending.old pending.new
        (changed_lines m (is_kernels machine.now.state) former.now 0
        (words_of machine.now.state)) result }
    ensures cause { FailsBySink K.Sink out.old out.new result }
{
    for a in 0..machine.store().size() {
        gather_changed_word(m, a, former, machine, out, pending)?;
    }
    Ok(())
}

// The line of a word, where there is one.
fn gather_changed_word<K: Sink>(
    m: Moment,
    a: u32,
    former: &Store,
    machine: &Machine,
    out: &mut K,
    pending: &mut Output,
) -> Result<(), SinkFault>
    ensures text { GathersFor K.Sink out.old out.new pending.old pending.new
        (changed_line m (is_kernels machine.now.state) former.now a
        (slice_index (words_of machine.now.state) a)) result }
    ensures cause { FailsBySink K.Sink out.old out.new result }
{
    let old = word(former, a);
    let new = word(machine.store(), a);
    if old == new {
        return Ok(());
    }
    if machine.is_kernel_word(a) {
        return Ok(());
    }
    gather_write(m, a, old, new, out, pending)
}

// A word as a signed number.
fn number(w: u32) -> Piece<'static>
    ensures { text_of result ≡ signed_decimal (signed w) }
{
    Signed(i64::from(signed(w)))
}
