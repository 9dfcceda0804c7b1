// The rules of tasks.
ghost use Rattle.std.specs.Prelude.{◌≡◌, ◌↔◌, ◌≤◌, ◌<◌, IsTrue, Some, length, map};
ghost use Rattle.std.specs.List.{AllByRecursion};
ghost use Rattle.word_store.specs.Count.{IsApart, times};
ghost use Rattle.kernel_lists.specs.TaskBlock.Lists.{modules_in};
ghost use Rattle.kernel_lists.specs.TaskBlock.TaskChain.{id_in, tasks_in};
ghost use Rattle.kernel_model.specs.KernelRecord.Recovered.{lists_in, task_in};
ghost use Rattle.kernel_model.specs.KernelRecord.Task.{task_id};
ghost use Rattle.kernel_model.specs.KernelRecord.ValidTasks.{AreValidTasks, IsTask, PrioritiesFall};
ghost use Rattle.kernel_check.specs.ListPasses.ClaimedStore.{IsClaimed};
ghost use Rattle.kernel_check.specs.ListPasses.StartMarks.{OpensMembers, OpensStarts};
ghost use Rattle.kernel_check.specs.ListPasses.Private.CanPass.{CanPass};
ghost use Rattle.kernel_check.specs.ListPasses.Private.TaskRules.{HasTaskNumbers, HasResidents};

use crate::list_passes::guests::{is_valid_guest, is_valid_resident};
use crate::list_passes::resident_pass::{has_residents, has_task};
use crate::list_passes::table::highest_of;
use kernel_lists::{FIRST_GUEST, TcbField, field, tasks};
use kernel_model::numbers::{CONSOLE, FILE_HANDLER, REPORTER, SHELL};
use store_claims::Claims;
use word_store::Store;

/// Of so many tasks two would have the same number.
const MOST_TASKS: u32 = 64;

/// Whether each task is as it must be, no two have one number, priorities fall, and all residents are there or none is.
pub fn are_valid_tasks(store: &Store, starts: &Claims, modules: &Claims) -> bool
    requires claimed { IsClaimed store.now }
    requires starts { OpensStarts store.now starts.now }
    requires modules { OpensMembers store.now (modules_in store.now) modules.now }
    ensures { IsTrue result ↔ AreValidTasks (lists_in store.now) }
{
    if !are_few(store) {
        return false;
    }
    if !is_each_valid(store, starts, modules) {
        return false;
    }
    if !priorities_fall(store) {
        return false;
    }
    if !numbers_differ(store) {
        return false;
    }
    has_all_residents(store)
}

// Whether each task is as it must be.
fn is_each_valid(store: &Store, starts: &Claims, modules: &Claims) -> bool
    requires claimed { IsClaimed store.now }
    requires starts { OpensStarts store.now starts.now }
    requires modules { OpensMembers store.now (modules_in store.now) modules.now }
    ensures { IsTrue result ↔
        AllByRecursion (IsTask (lists_in store.now)) (lists_in store.now).tasks }
{
    for t in tasks(store) {
        if !is_valid_task(store, starts, modules, t) {
            return false;
        }
    }
    true
}

// Whether the task at t is.
fn is_valid_task(store: &Store, starts: &Claims, modules: &Claims, t: u32) -> bool
    requires claimed { IsClaimed store.now }
    requires starts { OpensStarts store.now starts.now }
    requires modules { OpensMembers store.now (modules_in store.now) modules.now }
    requires can { CanPass store.now t }
    ensures { IsTrue result ↔ IsTask (lists_in store.now) (task_in store.now t) }
{
    if !has_numbers(store, t) {
        return false;
    }
    if field(store, t, TcbField::Id) >= FIRST_GUEST {
        is_valid_guest(store, starts, modules, t)
    } else {
        is_valid_resident(store, t)
    }
}

// Whether its priority, its maker, its saved C and its state are those that a task may have.
fn has_numbers(store: &Store, t: u32) -> bool
    ensures { IsTrue result ↔ HasTaskNumbers (lists_in store.now) (task_in store.now t) }
{
    let priority = field(store, t, TcbField::Pri);
    if priority < 1 || priority > 10_000 {
        return false;
    }
    if field(store, t, TcbField::Maker) > highest_of(store) {
        return false;
    }
    if field(store, t, TcbField::SavedC) >= 256 {
        return false;
    }
    field(store, t, TcbField::State) < 16
}

// Whether priorities fall along the chain.
fn priorities_fall(store: &Store) -> bool
    requires claimed { IsClaimed store.now }
    requires each { AllByRecursion (IsTask (lists_in store.now)) (lists_in store.now).tasks }
    ensures { IsTrue result ↔ PrioritiesFall (lists_in store.now).tasks }
{
    let mut above = 10_001;
    for t in tasks(store) {
        let priority = field(store, t, TcbField::Pri);
        if priority >= above {
            return false;
        }
        above = priority;
    }
    true
}

// Whether there are at most 64 tasks. Numbers are at most 63, so of more tasks two have one.
fn are_few(store: &Store) -> bool
    requires claimed { IsClaimed store.now }
    ensures { IsTrue result ↔ (length (tasks_in store.now) ≤ 64) }
{
    let mut count = 0;
    for _t in tasks(store) {
        if count >= MOST_TASKS {
            return false;
        }
        count += 1;
    }
    true
}

// Whether no two tasks have one number.
fn numbers_differ(store: &Store) -> bool
    requires claimed { IsClaimed store.now }
    ensures { IsTrue result ↔ IsApart (map task_id (lists_in store.now).tasks) }
{
    for t in tasks(store) {
        if !is_once(store, field(store, t, TcbField::Id)) {
            return false;
        }
    }
    true
}

// Whether at most one task has the number.
fn is_once(store: &Store, id: u32) -> bool
    requires claimed { IsClaimed store.now }
    ensures { IsTrue result ↔ (times id (map (id_in store.now) (tasks_in store.now)) ≤ 1) }
{
    let mut met = false;
    for t in tasks(store) {
        if field(store, t, TcbField::Id) == id {
            if met {
                return false;
            }
            met = true;
        }
    }
    true
}

// Whether all residents are there or none is; the reporter of faults may be absent.
fn has_all_residents(store: &Store) -> bool
    requires claimed { IsClaimed store.now }
    ensures { IsTrue result ↔ HasResidents (lists_in store.now) }
{
    let there = has_residents(store);
    if has_task(store, SHELL) != there {
        return false;
    }
    if has_task(store, CONSOLE) != there {
        return false;
    }
    if has_task(store, FILE_HANDLER) != there {
        return false;
    }
    if there {
        return true;
    }
    !has_task(store, REPORTER)
}
