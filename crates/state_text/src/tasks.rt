// The tasks of a kernel in words.
ghost use Rattle.std.specs.Prelude.{◌≡◌};
ghost use Rattle.std.specs.List.{flat_map};
ghost use Rattle.byte_streams.specs.Pending.{Gathers};
ghost use Rattle.byte_streams.specs.Sinks.{FailsBySink, GathersFor};
ghost use Rattle.kernel_model.specs.KernelRecord.KernelRanges.{CanWalkLists, CanWalkTask};
ghost use Rattle.kernel_model.specs.KernelRecord.Recovered.{lists_in, task_in};
ghost use Rattle.state_text.specs.PacketTexts.{packet_lines};
ghost use Rattle.state_text.specs.ProgramNames.{name_in};
ghost use Rattle.state_text.specs.TaskTexts.{awaited_text, awaits_packet, fault_line, field_words, flags_line, held_words, report_words, resumption_line, state_line, state_words, task_text, tasks_text};
ghost use Rattle.state_text.specs.declared.places.Place.TheVariants.{Task as OfTask};

use crate::awaited::gather_awaited;
use crate::names::{gather_line_end, name_of_task};
use crate::packets::gather_packets;
use crate::places::Place;
use crate::programs::Program;
use crate::queues::is_empty_queue;
use byte_streams::Piece::{Decimal, Text};
use byte_streams::{Output, Sink, SinkFault, gather, gather_pieces};
use kernel_lists::{TcbField, field, tasks};
use kernel_model::numbers::{FAULT_ADDRESS, FAULT_WORD, INTERRUPTED, REPORTED, RUNS, WAITS};
use kernel_model::{field_of_state, is_held_state};
use word_store::Store;

/// Gathers the lines of each task, in the order of the chain.
#[tactic(auto, unfolding(crate::specs::TaskTexts::tasks_text))]
pub(crate) fn gather_tasks<K: Sink>(
    store: &Store,
    programs: &[Program],
    out: &mut K,
    pending: &mut Output,
) -> Result<(), SinkFault>
    requires { CanWalkLists store.now }
    ensures text { GathersFor K.Sink out.old out.new pending.old pending.new
        (tasks_text (name_in programs.now store.now) (lists_in store.now)) result }
    ensures cause { FailsBySink K.Sink out.old out.new result }
{
    gather(out, pending, b"tasks\n")?;
    gather_chain(store, programs, out, pending)
}

// The lines of each task.
fn gather_chain<K: Sink>(
    store: &Store,
    programs: &[Program],
    out: &mut K,
    pending: &mut Output,
) -> Result<(), SinkFault>
    requires { CanWalkLists store.now }
    ensures text { GathersFor K.Sink out.old out.new pending.old pending.new
        (flat_map (task_text (name_in programs.now store.now) (lists_in store.now))
        (lists_in store.now).tasks) result }
    ensures cause { FailsBySink K.Sink out.old out.new result }
{
    for t in tasks(store) {
        gather_task(store, programs, t, out, pending)?;
    }
    Ok(())
}

// The lines of the task at t.
#[tactic(auto, unfolding(crate::specs::TaskTexts::task_text))]
fn gather_task<K: Sink>(
    store: &Store,
    programs: &[Program],
    t: u32,
    out: &mut K,
    pending: &mut Output,
) -> Result<(), SinkFault>
    requires lists { CanWalkLists store.now }
    requires task { CanWalkTask store.now t }
    ensures text { GathersFor K.Sink out.old out.new pending.old pending.new
        (task_text (name_in programs.now store.now) (lists_in store.now)
        (task_in store.now t)) result }
    ensures cause { FailsBySink K.Sink out.old out.new result }
{
    gather_state_line(store, programs, t, out, pending)?;
    gather_flags(field(store, t, TcbField::Flags), out, pending)?;
    gather_fault(store, t, out, pending)?;
    gather_queue(store, t, out, pending)?;
    gather_awaited_text(store, t, out, pending)?;
    gather_resumption(store, t, out, pending)
}

// Its number, its address, its priority, its state, and its program.
fn gather_state_line<K: Sink>(
    store: &Store,
    programs: &[Program],
    t: u32,
    out: &mut K,
    pending: &mut Output,
) -> Result<(), SinkFault>
    ensures text { GathersFor K.Sink out.old out.new pending.old pending.new
        (state_line (name_in programs.now store.now) (task_in store.now t)) result }
    ensures cause { FailsBySink K.Sink out.old out.new result }
{
    gather_state_words(store, t, out, pending)?;
    gather_line_end(name_of_task(programs, store, t), out, pending)
}

// Its number, its address, its priority, and its state.
fn gather_state_words<K: Sink>(
    store: &Store,
    t: u32,
    out: &mut K,
    pending: &mut Output,
) -> Result<(), SinkFault>
    ensures text { GathersFor K.Sink out.old out.new pending.old pending.new
        (state_words (task_in store.now t)) result }
    ensures cause { FailsBySink K.Sink out.old out.new result }
{
    let state = field(store, t, TcbField::State);
    gather_pieces(
        out,
        pending,
        &[
            Text(b"task "),
            Decimal(u64::from(field(store, t, TcbField::Id))),
            Text(b" at "),
            Decimal(u64::from(t)),
            Text(b", priority "),
            Decimal(u64::from(field(store, t, TcbField::Pri))),
            Text(b", "),
            Text(field_words(field_of_state(state))),
            Text(held_words(is_held_state(state))),
        ],
    )
}

// What a task does, by the field of its state.
fn field_words(field: u32) -> &'static [u8]
    ensures { result.now ≡ field_words field }
{
    match field {
        RUNS => b"runs",
        WAITS => b"waits",
        INTERRUPTED => b"was interrupted",
        _ => b"is dead",
    }
}

// That it is held, where it is.
fn held_words(held: bool) -> &'static [u8]
    ensures { result.now ≡ held_words held }
{
    if held { b", is held" } else { b"" }
}

// Its flags, where one is set.
fn gather_flags<K: Sink>(flags: u32, out: &mut K, pending: &mut Output) -> Result<(), SinkFault>
    ensures text { GathersFor K.Sink out.old out.new pending.old pending.new
        (flags_line flags) result }
    ensures cause { FailsBySink K.Sink out.old out.new result }
{
    if flags == 0 {
        return Ok(());
    }
    gather_pieces(
        out,
        pending,
        &[
            Text(b"  its flags are "),
            Decimal(u64::from(flags)),
            Text(b"\n"),
        ],
    )
}

// The fault that it met, where it met one.
fn gather_fault<K: Sink>(
    store: &Store,
    t: u32,
    out: &mut K,
    pending: &mut Output,
) -> Result<(), SinkFault>
    ensures text { GathersFor K.Sink out.old out.new pending.old pending.new
        (fault_line (task_in store.now t).fault (task_in store.now t).fault_address) result }
    ensures cause { FailsBySink K.Sink out.old out.new result }
{
    let fault = field(store, t, FAULT_WORD);
    if fault == 0 {
        return Ok(());
    }
    gather_pieces(
        out,
        pending,
        &[
            Text(b"  fault "),
            Decimal(u64::from(fault % REPORTED)),
            Text(b" at "),
            Decimal(u64::from(field(store, t, FAULT_ADDRESS))),
            Text(b", "),
            Text(report_words(fault)),
            Text(b"\n"),
        ],
    )
}

// Whether a fault was reported.
fn report_words(fault: u32) -> &'static [u8]
    ensures { result.now ≡ report_words fault }
{
    if fault < REPORTED {
        b"not reported"
    } else {
        b"reported"
    }
}

// The packets of its queue.
fn gather_queue<K: Sink>(
    store: &Store,
    t: u32,
    out: &mut K,
    pending: &mut Output,
) -> Result<(), SinkFault>
    requires { CanWalkTask store.now t }
    ensures text { GathersFor K.Sink out.old out.new pending.old pending.new
        (packet_lines (OfTask (task_in store.now t).id) (task_in store.now t).queue) result }
    ensures cause { FailsBySink K.Sink out.old out.new result }
{
    let place = Place::Task(field(store, t, TcbField::Id));
    let head = store.address_of(t, TcbField::Queue.index());
    gather_packets(store, place, head, out, pending)
}

// What it waits for, where it waits and no packet has come.
fn gather_awaited_text<K: Sink>(
    store: &Store,
    t: u32,
    out: &mut K,
    pending: &mut Output,
) -> Result<(), SinkFault>
    requires lists { CanWalkLists store.now }
    requires task { CanWalkTask store.now t }
    ensures text { GathersFor K.Sink out.old out.new pending.old pending.new
        (awaited_text (lists_in store.now) (task_in store.now t)) result }
    ensures cause { FailsBySink K.Sink out.old out.new result }
{
    if !awaits_packet(store, t) {
        return Ok(());
    }
    gather_awaited(store, field(store, t, TcbField::Id), out, pending)
}

/// Whether it waits, and no packet has come.
pub(crate) fn awaits_packet(store: &Store, t: u32) -> bool
    requires { CanWalkTask store.now t }
    ensures { result ≡ awaits_packet (task_in store.now t) }
{
    let state = field(store, t, TcbField::State);
    if field_of_state(state) != WAITS {
        return false;
    }
    is_empty_queue(store, store.address_of(t, TcbField::Queue.index()))
}

// Where it goes on, if it was interrupted.
fn gather_resumption<K: Sink>(
    store: &Store,
    t: u32,
    out: &mut K,
    pending: &mut Output,
) -> Result<(), SinkFault>
    ensures text { GathersFor K.Sink out.old out.new pending.old pending.new
        (resumption_line (task_in store.now t)) result }
    ensures cause { FailsBySink K.Sink out.old out.new result }
{
    let state = field(store, t, TcbField::State);
    if field_of_state(state) != INTERRUPTED {
        return Ok(());
    }
    let pc = field(store, t, TcbField::SavedPc);
    gather_pieces(
        out,
        pending,
        &[
            Text(b"  it goes on at byte "),
            Decimal(u64::from(pc)),
            Text(b"\n"),
        ],
    )
}
