// The fault of a task that a step records.
ghost use Rattle.std.specs.Option.{option_map};
ghost use Rattle.std.specs.Prelude.{◌≡◌, Some};
ghost use Rattle.byte_streams.specs.Pending.{Gathers};
ghost use Rattle.byte_streams.specs.Sinks.{FailsBySink, GathersFor};
ghost use Rattle.kernel_model.specs.KernelRecord.HoldsLists.{HoldsLists};
ghost use Rattle.kernel_model.specs.KernelRecord.Lists.{Lists};
ghost use Rattle.kernel_lists.specs.TaskBlock.TaskChain.{HasTasks, task_with, tasks_in};
ghost use Rattle.show_run.specs.StepLog.Faults.{fault_lines, is_same, record_at, record_of, record_of_task, recorded_line, unreported_lines};

use crate::step_log::moments::{Moment, gather_line};
use byte_streams::Piece::{Decimal, Text};
use byte_streams::{Output, Sink, SinkFault};
use kernel_lists::{field, find};
use kernel_model::numbers::{FAULT_ADDRESS, FAULT_WORD, REPORTED};
use tripos_machine::Machine;
use word_store::Store;

/// What is recorded of a task's fault.
#[derive(Clone, Copy)]
pub struct FaultRecord {
    /// The code, 0 where the task had no fault.
    pub code: u32,
    /// The address.
    pub address: u32,
}

/// What is recorded of a fault of the task with the number, where there is such a task.
pub(crate) fn fault_record(machine: &Machine, id: u32) -> Option<FaultRecord>
    ensures { result ≡ record_of id machine.now.state }
{
    match machine.kernel_parts() {
        Some(parts) => record_in_chain(&parts.store, id),
        None => None,
    }
}

fn record_in_chain(store: &Store, id: u32) -> Option<FaultRecord>
    requires { (l : Lists) × HoldsLists store.now l }
    ensures { (l : Lists) → HoldsLists store.now l → result ≡ record_of_task id l.tasks }
{
    record_of_block(store, id)
}

// What the words of its task block say.
fn record_of_block(store: &Store, id: u32) -> Option<FaultRecord>
    requires { HasTasks store.now }
    ensures { result
        ≡ option_map (record_at store.now) (task_with store.now id (tasks_in store.now)) }
{
    match find(store, id) {
        Some(t) => Some(record_at(store, t)),
        None => None,
    }
}

fn record_at(store: &Store, t: u32) -> FaultRecord
    ensures { result ≡ record_at store.now t }
{
    FaultRecord {
        code: field(store, t, FAULT_WORD),
        address: field(store, t, FAULT_ADDRESS),
    }
}

/// Gathers the line of the fault that the step has recorded, if it has recorded one of this task, which had this record before.
pub(crate) fn gather_fault<K: Sink>(
    m: Moment,
    before: Option<FaultRecord>,
    machine: &Machine,
    out: &mut K,
    pending: &mut Output,
) -> Result<(), SinkFault>
    ensures text { GathersFor K.Sink out.old out.new pending.old pending.new
        (fault_lines m before (record_of m.task machine.now.state)) result }
    ensures cause { FailsBySink K.Sink out.old out.new result }
{
    match fault_record(machine, m.task) {
        Some(now) => gather_record(m, before, now, out, pending),
        None => Ok(()),
    }
}

fn gather_record<K: Sink>(
    m: Moment,
    before: Option<FaultRecord>,
    now: FaultRecord,
    out: &mut K,
    pending: &mut Output,
) -> Result<(), SinkFault>
    ensures text { GathersFor K.Sink out.old out.new pending.old pending.new
        (fault_lines m before (Some now)) result }
    ensures cause { FailsBySink K.Sink out.old out.new result }
{
    if is_same(before, now) {
        return Ok(());
    }
    gather_unreported(m, now, out, pending)
}

// Whether the record is the one from before.
fn is_same(before: Option<FaultRecord>, now: FaultRecord) -> bool
    ensures { result ≡ is_same before now }
{
    match before {
        Some(before) => before.code == now.code && before.address == now.address,
        None => false,
    }
}

// The line of a fault that was not reported yet.
fn gather_unreported<K: Sink>(
    m: Moment,
    fault: FaultRecord,
    out: &mut K,
    pending: &mut Output,
) -> Result<(), SinkFault>
    ensures text { GathersFor K.Sink out.old out.new pending.old pending.new
        (unreported_lines m fault) result }
    ensures cause { FailsBySink K.Sink out.old out.new result }
{
    if fault.code == 0 {
        return Ok(());
    }
    if fault.code >= REPORTED {
        return Ok(());
    }
    gather_recorded(m, fault, out, pending)
}

fn gather_recorded<K: Sink>(
    m: Moment,
    fault: FaultRecord,
    out: &mut K,
    pending: &mut Output,
) -> Result<(), SinkFault>
    ensures text { GathersFor K.Sink out.old out.new pending.old pending.new
        (recorded_line m fault) result }
    ensures cause { FailsBySink K.Sink out.old out.new result }
{
    gather_line(
        m,
        &[
            Text(b"fault "),
            Decimal(u64::from(fault.code)),
            Text(b" at "),
            Decimal(u64::from(fault.address)),
        ],
        out,
        pending,
    )
}
