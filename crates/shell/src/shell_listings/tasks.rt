// The tasks of the chain.
ghost use Rattle.std.specs.Prelude.{◌≡◌, ◌+◌, ◌*◌, ◌≤◌, ◌++◌, length};
ghost use Rattle.kernel_lists.specs.LinkedList.Walk.{CanWalk};
ghost use Rattle.kernel_lists.specs.TaskBlock.RootWords.{first_task};
ghost use Rattle.kernel_lists.specs.TaskBlock.TaskChain.{task_link, tasks_in};
ghost use Rattle.kernel_model.specs.KernelRecord.HoldsLists.{HoldsLists};
ghost use Rattle.kernel_model.specs.KernelRecord.Lists.{Lists};
ghost use Rattle.kernel_model.specs.KernelRecord.Task.{field_of_state, is_held_state};
ghost use Rattle.shell.specs.ShellListings.TaskLines.{field_name, has_packets, line_of_words, mark, most_in_task_line, most_in_tasks, state_text, task_line_at, task_lines, task_lines_in};

use crate::shell_listings::columns::append_right;
use byte_streams::Output;
use kernel_lists::{TcbField, field, tasks};
use kernel_model::numbers::{INTERRUPTED, RUNS, WAITS};
use kernel_model::{field_of_state, is_held_state};
use word_store::Store;

/// Writes a line for each task, in the order of the chain: its number right in 3 places, a space, its priority right in 5
/// places, a space, `run`, `wait`, `int` or `dead`, then ` pkt` where packets wait and ` held` where it is held.
pub fn write_tasks(store: &Store, bytes: &mut Output)
    requires lists { (l : Lists) × HoldsLists store.now l }
    requires room { length bytes.old + most_in_tasks ≤ 8192 }
    ensures text { (l : Lists) → HoldsLists store.now l
        → bytes.new ≡ bytes.old ++ task_lines l.tasks }
    ensures short { length bytes.new ≤ length bytes.old + most_in_tasks }
{
    write_chain(store, bytes);
}

// There is room for a line of each task.
#[tactic(auto, unfolding(crate::specs::ShellListings::TaskLines::task_lines_in))]
fn write_chain(store: &Store, bytes: &mut Output)
    requires chain { CanWalk store.now task_link first_task }
    requires room { length bytes.old + most_in_task_line * length (tasks_in store.now) ≤ 8192 }
    ensures text { bytes.new ≡ bytes.old ++ task_lines_in store.now }
    ensures short { length bytes.new
        ≤ length bytes.old + most_in_task_line * length (tasks_in store.now) }
{
    for t in tasks(store) {
        write_task(store, t, bytes);
    }
}

// The line of the task block at t.
fn write_task(store: &Store, t: u32, bytes: &mut Output)
    requires { length bytes.old + most_in_task_line ≤ 8192 }
    ensures text { bytes.new ≡ bytes.old ++ task_line_at store.now t }
    ensures short { length bytes.new ≤ length bytes.old + most_in_task_line }
{
    let id = field(store, t, TcbField::Id);
    let priority = field(store, t, TcbField::Pri);
    let state = field(store, t, TcbField::State);
    append_line(bytes, id, priority, state);
}

fn append_line(bytes: &mut Output, id: u32, priority: u32, state: u32)
    requires { length bytes.old + most_in_task_line ≤ 8192 }
    ensures text { bytes.new ≡ bytes.old ++ line_of_words id priority state }
    ensures short { length bytes.new ≤ length bytes.old + most_in_task_line }
{
    append_right(bytes, 3, id);
    bytes.append(b" ");
    append_right(bytes, 5, priority);
    bytes.append(b" ");
    append_state(bytes, state);
    bytes.append(b"\n");
}

// Adds the word for the state of a task, and its marks.
fn append_state(bytes: &mut Output, state: u32)
    requires { length bytes.old + 13 ≤ 8192 }
    ensures text { bytes.new ≡ bytes.old
        ++ state_text (field_of_state state) (has_packets state) (is_held_state state) }
    ensures short { length bytes.new ≤ length bytes.old + 13 }
{
    bytes.append(field_name(field_of_state(state)));
    append_mark(bytes, b" pkt", state % 2 == 1);
    append_mark(bytes, b" held", is_held_state(state));
}

// The word for the field of a state.
fn field_name(field: u32) -> &'static [u8]
    ensures text { result.now ≡ field_name field }
    ensures short { length result.now ≤ 4 }
{
    match field {
        RUNS => b"run",
        WAITS => b"wait",
        INTERRUPTED => b"int",
        _ => b"dead",
    }
}

fn append_mark(bytes: &mut Output, text: &[u8], set: bool)
    requires few { length text.now ≤ 5 }
    requires room { length bytes.old + 5 ≤ 8192 }
    ensures text { bytes.new ≡ bytes.old ++ mark text.now set }
    ensures short { length bytes.new ≤ length bytes.old + length text.now }
{
    if set {
        bytes.append(text);
    }
}
