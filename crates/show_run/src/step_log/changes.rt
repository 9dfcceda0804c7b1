// What a step changes besides: the tick, the keys that are to come, and whether the machine goes on.
ghost use Rattle.std.specs.Prelude.{◌≡◌, length, slice_get};
ghost use Rattle.byte_streams.specs.Pending.{Gathers};
ghost use Rattle.byte_streams.specs.Sinks.{FailsBySink, GathersFor};
ghost use Rattle.tripos_machine.specs.State.{keys_to_come, stop_of};
ghost use Rattle.show_run.specs.StepLog.Moments.{line};
ghost use Rattle.show_run.specs.StepLog.StepLines.{key_line, key_lines, stop_lines, stop_text, tick_lines, tick_of};

use crate::step_log::moments::{Moment, gather_line};
use byte_streams::Piece::{Decimal, Text};
use byte_streams::{Output, Sink, SinkFault};
use kernel_lists::{RootField, root};
use kernel_model::Stop;
use tripos_machine::Machine;

/// The keys that are still to come: how many, and the first.
#[derive(Clone, Copy)]
pub struct Keys {
    /// How many.
    pub count: usize,
    /// The step at which the first is due, and its byte.
    pub first: Option<(u32, u8)>,
}

/// The ticks so far, 0 on a machine without a kernel.
pub(crate) fn tick(machine: &Machine) -> u32
    ensures { result ≡ tick_of machine.now.state }
{
    match machine.kernel_parts() {
        Some(parts) => root(&parts.store, RootField::Tick),
        None => 0,
    }
}

/// The keys that are still to come.
pub(crate) fn keys_left(machine: &Machine) -> Keys
    ensures count { result.count ≡ length (keys_to_come machine.now.state) }
    ensures first { result.first ≡ slice_get (keys_to_come machine.now.state) 0 }
{
    match machine.kernel_parts() {
        Some(parts) => Keys {
            count: parts.keys.rest().len(),
            first: parts.keys.first(),
        },
        None => Keys {
            count: 0,
            first: None,
        },
    }
}

/// Gathers the line of a tick, where it is another than that before the step.
pub(crate) fn gather_tick<K: Sink>(
    m: Moment,
    machine: &Machine,
    out: &mut K,
    pending: &mut Output,
) -> Result<(), SinkFault>
    ensures text { GathersFor K.Sink out.old out.new pending.old pending.new
        (tick_lines m (tick_of machine.now.state)) result }
    ensures cause { FailsBySink K.Sink out.old out.new result }
{
    let tick = tick(machine);
    if m.tick == tick {
        return Ok(());
    }
    gather_line(m, &[Text(b"tick "), Decimal(u64::from(tick))], out, pending)
}

/// Gathers the line of the key that came, where fewer are still to come.
pub(crate) fn gather_key<K: Sink>(
    m: Moment,
    before: Keys,
    machine: &Machine,
    out: &mut K,
    pending: &mut Output,
) -> Result<(), SinkFault>
    ensures text { GathersFor K.Sink out.old out.new pending.old pending.new
        (key_lines m before.count before.first
        (length (keys_to_come machine.now.state))) result }
    ensures cause { FailsBySink K.Sink out.old out.new result }
{
    if keys_left(machine).count >= before.count {
        return Ok(());
    }
    let Some((_, byte)) = before.first else {
        return Ok(());
    };
    gather_line(m, &[Text(b"key "), Decimal(u64::from(byte))], out, pending)
}

/// Gathers why the machine has stopped, if it has.
pub(crate) fn gather_stop<K: Sink>(
    m: Moment,
    machine: &Machine,
    out: &mut K,
    pending: &mut Output,
) -> Result<(), SinkFault>
    ensures text { GathersFor K.Sink out.old out.new pending.old pending.new
        (stop_lines m (stop_of machine.now.state)) result }
    ensures cause { FailsBySink K.Sink out.old out.new result }
{
    match machine.stop() {
        Some(stop) => gather_stopped(m, stop, out, pending),
        None => Ok(()),
    }
}

fn gather_stopped<K: Sink>(
    m: Moment,
    stop: Stop,
    out: &mut K,
    pending: &mut Output,
) -> Result<(), SinkFault>
    ensures text { GathersFor K.Sink out.old out.new pending.old pending.new
        (line m (stop_text stop)) result }
    ensures cause { FailsBySink K.Sink out.old out.new result }
{
    match stop {
        Stop::Steps => gather_line(m, &[Text(b"stop steps")], out, pending),
        Stop::Quit(code) => gather_line(
            m,
            &[Text(b"stop quit "), Decimal(u64::from(code))],
            out,
            pending,
        ),
        Stop::Finish => gather_line(m, &[Text(b"stop finish")], out, pending),
        Stop::Fault {
            code,
            address,
            task,
        } => gather_line(
            m,
            &[
                Text(b"stop fault "),
                Decimal(u64::from(code)),
                Text(b" at "),
                Decimal(u64::from(address)),
                Text(b" in task "),
                Decimal(u64::from(task)),
            ],
            out,
            pending,
        ),
    }
}
