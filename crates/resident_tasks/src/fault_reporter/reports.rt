// The reports of faults: their lines, and the mark of a fault that was reported.
ghost use Rattle.std.specs.Prelude.{◌≡◌, ◌+◌, ◌*◌, ◌≤◌, ◌++◌, decimal, length};
ghost use Rattle.kernel_lists.specs.LinkedList.Walk.{CanWalk};
ghost use Rattle.kernel_lists.specs.TaskBlock.TaskChain.{task_link, tasks_in};
ghost use Rattle.kernel_lists.specs.TaskBlock.RootWords.{first_task};
ghost use Rattle.kernel_model.specs.KernelRecord.HoldsLists.{HoldsLists};
ghost use Rattle.kernel_model.specs.KernelRecord.Lists.{Lists};
ghost use Rattle.kernel_model.specs.KernelRecord.Changes.{with_task};
ghost use Rattle.resident_tasks.specs.FaultReporter.FaultTurns.{all_reported, reported};
ghost use Rattle.resident_tasks.specs.FaultReporter.Recorded.{OwnsSame};
ghost use Rattle.resident_tasks.specs.FaultReporter.Texts.{is_unreported_word, most_in_line, report, report_at, reports_in};

use byte_streams::Output;
use itoa::Buffer;
use kernel_lists::{FIRST_GUEST, TcbField, field, find, set_field, tasks};
use kernel_model::numbers::{FAULT_ADDRESS, FAULT_WORD, REPORTED};
use word_store::Store;

/// One more than the highest number that a task may have.
const END_OF_IDS: u32 = 64;

/// Adds a line for each fault that was not reported yet, in the order of the chain. There is room for a line of each task.
#[tactic(auto, unfolding(crate::specs::FaultReporter::Texts::reports_in))]
pub(crate) fn print_reports(store: &Store, bytes: &mut Output)
    requires chain { CanWalk store.now task_link first_task }
    requires room { length bytes.old + most_in_line * length (tasks_in store.now) ≤ 8192 }
    ensures { bytes.new ≡ bytes.old ++ reports_in store.now }
{
    for t in tasks(store) {
        print_report(store, t, bytes);
    }
}

// Adds the line of the task at t, where it has a fault that was not reported yet.
fn print_report(store: &Store, t: u32, bytes: &mut Output)
    requires { length bytes.old + most_in_line ≤ 8192 }
    ensures text { bytes.new ≡ bytes.old ++ report_at store.now t }
    ensures short { length bytes.new ≤ length bytes.old + most_in_line }
{
    let fault = field(store, t, FAULT_WORD);
    if !is_unreported(fault) {
        return;
    }
    let id = field(store, t, TcbField::Id);
    let address = field(store, t, FAULT_ADDRESS);
    append_report(bytes, id, fault, address);
}

fn append_report(bytes: &mut Output, id: u32, fault: u32, address: u32)
    requires { length bytes.old + most_in_line ≤ 8192 }
    ensures text { bytes.new ≡ bytes.old ++ report id fault address }
    ensures short { length bytes.new ≤ length bytes.old + most_in_line }
{
    bytes.append(b"Task ");
    append_number(bytes, id);
    bytes.append(b" fault ");
    append_number(bytes, fault);
    bytes.append(b" at ");
    append_number(bytes, address);
    bytes.append(b"\n");
}

// Adds a number in decimal, which has at most 10 digits.
#[tactic(auto, using(crate::proofs::FaultReporter::ReportLines::few_digits))]
fn append_number(bytes: &mut Output, n: u32)
    requires { length bytes.old + 10 ≤ 8192 }
    ensures text { bytes.new ≡ bytes.old ++ decimal n }
    ensures short { length bytes.new ≤ length bytes.old + 10 }
{
    let mut buffer = Buffer::new();
    bytes.append(buffer.format(n).as_bytes());
}

// Whether a fault word says that the task has a fault that was not reported yet.
fn is_unreported(word: u32) -> bool
    ensures { result ≡ is_unreported_word word }
{
    if word == 0 {
        return false;
    }
    word < REPORTED
}

/// Every fault is reported.
pub(crate) fn mark_reports(store: &mut Store)
    requires { (l : Lists) × HoldsLists store.old l }
    ensures { (l : Lists) → HoldsLists store.old l
        → OwnsSame store.old store.new l (all_reported l) }
{
    for id in FIRST_GUEST..END_OF_IDS {
        mark_report(store, id);
    }
}

// The fault of the guest with the number is reported.
fn mark_report(store: &mut Store, id: u32)
    requires guest { FIRST_GUEST ≤ id }
    requires lists { (l : Lists) × HoldsLists store.old l }
    ensures { (l : Lists) → HoldsLists store.old l
        → OwnsSame store.old store.new l (with_task id reported l) }
{
    let Some(task) = find(store, id) else {
        return;
    };
    let fault = field(store, task, FAULT_WORD);
    if !is_unreported(fault) {
        return;
    }
    set_field(store, task, FAULT_WORD, fault + REPORTED);
}
