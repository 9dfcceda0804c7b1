// What holds between steps besides, of the lists of a store that holds the words of valid ones.
ghost use Rattle.std.specs.Prelude.{◌≡◌, ◌↔◌, ◌/◌, IsTrue};
ghost use Rattle.std.specs.List.{AllByRecursion};
ghost use Rattle.kernel_lists.specs.LinkedList.Walk.{CanWalk};
ghost use Rattle.kernel_lists.specs.TaskBlock.RootWords.{first_task};
ghost use Rattle.kernel_lists.specs.TaskBlock.TaskChain.{task_link};
ghost use Rattle.kernel_model.specs.KernelRecord.Between.{AreValidRegisters, FirstRuns, first_ready};
ghost use Rattle.kernel_model.specs.KernelRecord.HoldsLists.{HoldsLists};
ghost use Rattle.kernel_model.specs.KernelRecord.Recovered.{lists_in, task_in};
ghost use Rattle.kernel_model.specs.KernelRecord.Running.{RunsAs, RunsIf};

use crate::list_passes::running_of;
use kernel_lists::{FIRST_GUEST, RootField, TcbField, field, root, tasks};
use kernel_model::kernel_dispatch::choose;
use kernel_model::numbers::WAITS;
use word_store::{Regs, Store};

/// Whether the first ready task runs, or nobody where none is ready, and exactly that task has the state of one that runs. It
/// looks twice at each task.
pub fn first_runs(store: &Store) -> bool
    requires { HoldsLists store.now (lists_in store.now) }
    ensures { IsTrue result ↔ FirstRuns (lists_in store.now) }
{
    let running = running_of(store);
    if running != first_ready(store) {
        return false;
    }
    states_tell(store, running)
}

// The number of the first ready task, or 0.
fn first_ready(store: &Store) -> u32
    requires { HoldsLists store.now (lists_in store.now) }
    ensures { result ≡ first_ready (lists_in store.now).tasks }
{
    match choose(store) {
        Some(t) => field(store, t, TcbField::Id),
        None => 0,
    }
}

// Whether exactly the task with the number has the state of one that runs.
fn states_tell(store: &Store, running: u32) -> bool
    requires { CanWalk store.now task_link first_task }
    ensures { IsTrue result ↔
        AllByRecursion (λ t. RunsAs running t × RunsIf running t) (lists_in store.now).tasks }
{
    for t in tasks(store) {
        if !state_tells(store, t, running) {
            return false;
        }
    }
    true
}

// The same of the task at t.
fn state_tells(store: &Store, t: u32, running: u32) -> bool
    ensures { IsTrue result ↔
        (RunsAs running (task_in store.now t) × RunsIf running (task_in store.now t)) }
{
    let is_it = field(store, t, TcbField::Id) == running;
    if field(store, t, TcbField::State) < WAITS {
        return is_it;
    }
    !is_it
}

/// Whether C is a byte, and all registers are 0 where no guest runs.
pub fn are_valid_registers(store: &Store, regs: &Regs) -> bool
    ensures { IsTrue result ↔ AreValidRegisters (lists_in store.now) regs.now }
{
    if regs.c >= 256 {
        return false;
    }
    if running_of(store) >= FIRST_GUEST {
        return true;
    }
    are_zero(regs)
}

// Whether all registers are 0.
fn are_zero(regs: &Regs) -> bool
    ensures { IsTrue result ↔ ((regs.now.a ≡ 0) × (regs.now.b ≡ 0) × (regs.now.c ≡ 0)
        × (regs.now.p ≡ 0) × (regs.now.g ≡ 0) × (regs.now.pc ≡ 0)) }
{
    regs.a == 0 && regs.b == 0 && regs.c == 0 && regs.p == 0 && regs.g == 0 && regs.pc == 0
}

/// Whether the ticks of the store are the whole periods in so many steps.
pub fn are_valid_ticks(store: &Store, steps: u64) -> bool
    requires { HoldsLists store.now (lists_in store.now) }
    ensures { IsTrue result ↔ ((lists_in store.now).tick ≡ steps / (lists_in store.now).period) }
{
    let period = u64::from(root(store, RootField::Period));
    u64::from(root(store, RootField::Tick)) == steps / period
}
