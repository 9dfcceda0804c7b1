// The walks, one after the other.
ghost use Rattle.std.specs.Prelude.{◌≡◌, ◌↔◌, ◌+◌, ◌≤◌, IsTrue, length};
ghost use Rattle.std.specs.List.{AllByRecursion, flat_map};
ghost use Rattle.std.specs.Bool.{OnTrue};
ghost use Rattle.kernel_lists.specs.LinkedList.Chain.{IsChain};
ghost use Rattle.kernel_lists.specs.LinkedList.Walk.{CanWalk};
ghost use Rattle.kernel_lists.specs.TaskBlock.Lists.{module_link, modules_in};
ghost use Rattle.kernel_lists.specs.TaskBlock.RootWords.{first_module, first_task, root_address};
ghost use Rattle.kernel_lists.specs.TaskBlock.TaskChain.{task_link, tasks_in};
ghost use Rattle.store_claims.specs.WordClaims.Marks.{AreClaimed};
ghost use Rattle.store_claims.specs.ListClaims.ListEnds.{AllEnd, CoroutinesEnd, DevicesEnd, KeyboardEnds, ModulesEnd, OutputEnds, QueueEnds, TaskListsEnd, TasksEnd};
ghost use Rattle.store_claims.specs.ListClaims.ListWords.{AreBlocks, Can, all_words, chain_words, coroutine_words_at, device_rest, keyboard_rest, module_rest, module_words_in, output_rest, queue_words_at, task_list_words, task_rest};

use crate::list_claims::kinds::{Coroutines, Modules, Packets, TaskBlocks};
use crate::list_claims::residents::claim_residents;
use crate::word_claims::{Claims, claim_list};
use kernel_lists::{RootField, TcbField, tasks};
use word_store::Store;

/// Which word of a coroutine is its link.
const COROUTINE_LINK: u32 = 2;

/// Claims the words of all lists: of the chain of tasks, of the modules, of the packets and the coroutines of each task, of the
/// packets of the devices, and of the residents. The answer is true exactly where all lists end, and their words are open and
/// apart.
pub fn claim_lists(store: &Store, words: &mut Claims) -> bool
    requires { length words.old ≤ length store.now }
    ensures { IsTrue result ↔ Can (AllEnd store.now) words.old (all_words store.now) }
{
    if !claim_chain(store, words) {
        return false;
    }
    claim_from_modules(store, words)
}

// The task blocks.
fn claim_chain(store: &Store, words: &mut Claims) -> bool
    requires { length words.old ≤ length store.now }
    ensures answer { IsTrue result ↔
        Can (IsChain store.now task_link first_task (tasks_in store.now)) words.old (chain_words store.now) }
    ensures claimed { OnTrue result (AreClaimed words.old words.new (chain_words store.now)) }
    ensures size { length words.new ≡ length words.old }
    ensures walk { OnTrue result (CanWalk store.now task_link first_task) }
    ensures blocks { OnTrue result (AreBlocks store.now (tasks_in store.now)) }
{
    claim_list(store, words, RootField::FirstTask.address(), 0, &TaskBlocks)
}

// All after the chain of tasks.
fn claim_from_modules(store: &Store, words: &mut Claims) -> bool
    requires room { length words.old ≤ length store.now }
    requires walk { CanWalk store.now task_link first_task }
    requires blocks { AreBlocks store.now (tasks_in store.now) }
    ensures { IsTrue result ↔ Can (ModulesEnd store.now) words.old (module_rest store.now) }
{
    if !claim_modules(store, words) {
        return false;
    }
    claim_from_tasks(store, words)
}

// The modules.
fn claim_modules(store: &Store, words: &mut Claims) -> bool
    requires { length words.old ≤ length store.now }
    ensures answer { IsTrue result ↔ Can (IsChain store.now module_link first_module
        (modules_in store.now)) words.old (module_words_in store.now) }
    ensures claimed { OnTrue result (AreClaimed words.old words.new (module_words_in store.now)) }
    ensures size { length words.new ≡ length words.old }
{
    claim_list(store, words, RootField::FirstModule.address(), 0, &Modules)
}

// All after the modules.
fn claim_from_tasks(store: &Store, words: &mut Claims) -> bool
    requires room { length words.old ≤ length store.now }
    requires walk { CanWalk store.now task_link first_task }
    requires blocks { AreBlocks store.now (tasks_in store.now) }
    ensures { IsTrue result ↔ Can (TasksEnd store.now) words.old (task_rest store.now) }
{
    if !claim_task_lists(store, words) {
        return false;
    }
    claim_devices(store, words)
}

// The packets and the coroutines of each task.
fn claim_task_lists(store: &Store, words: &mut Claims) -> bool
    requires room { length words.old ≤ length store.now }
    requires walk { CanWalk store.now task_link first_task }
    requires blocks { AreBlocks store.now (tasks_in store.now) }
    ensures answer { IsTrue result ↔
        Can (AllByRecursion (TaskListsEnd store.now) (tasks_in store.now)) words.old
        (flat_map (task_list_words store.now) (tasks_in store.now)) }
    ensures claimed { OnTrue result (AreClaimed words.old words.new
        (flat_map (task_list_words store.now) (tasks_in store.now))) }
    ensures size { length words.new ≡ length words.old }
{
    for t in tasks(store) {
        if !claim_task(store, words, t) {
            return false;
        }
    }
    true
}

// Those of the task at t.
fn claim_task(store: &Store, words: &mut Claims, t: u32) -> bool
    requires room { length words.old ≤ length store.now }
    requires block { t + 23 ≤ length store.now }
    ensures answer { IsTrue result ↔ Can (QueueEnds store.now (t + 3) × CoroutinesEnd store.now t)
        words.old (task_list_words store.now t) }
    ensures claimed { OnTrue result (AreClaimed words.old words.new (task_list_words store.now t)) }
    ensures size { length words.new ≡ length words.old }
{
    if !claim_queue(store, words, store.address_of(t, TcbField::Queue.index())) {
        return false;
    }
    claim_coroutines(store, words, t)
}

// The coroutines of the task at t.
fn claim_coroutines(store: &Store, words: &mut Claims, t: u32) -> bool
    requires room { length words.old ≤ length store.now }
    requires block { t + 23 ≤ length store.now }
    ensures answer { IsTrue result ↔ Can (CoroutinesEnd store.now t)
        words.old (coroutine_words_at store.now t) }
    ensures claimed { OnTrue result
        (AreClaimed words.old words.new (coroutine_words_at store.now t)) }
    ensures size { length words.new ≡ length words.old }
{
    let head = store.address_of(t, TcbField::FirstCo.index());
    claim_list(store, words, head, COROUTINE_LINK, &Coroutines)
}

/// The packets of the queue at a head.
pub(crate) fn claim_queue(store: &Store, words: &mut Claims, head: u32) -> bool
    requires { length words.old ≤ length store.now }
    ensures answer { IsTrue result ↔
        Can (QueueEnds store.now head) words.old (queue_words_at store.now head) }
    ensures claimed { OnTrue result
        (AreClaimed words.old words.new (queue_words_at store.now head)) }
    ensures size { length words.new ≡ length words.old }
{
    claim_list(store, words, head, 0, &Packets)
}

// The packets of a device, whose queue has this head.
fn claim_device(store: &Store, words: &mut Claims, head: RootField) -> bool
    requires { length words.old ≤ length store.now }
    ensures answer { IsTrue result ↔ Can (QueueEnds store.now (root_address head)) words.old
        (queue_words_at store.now (root_address head)) }
    ensures claimed { OnTrue result (AreClaimed words.old words.new
        (queue_words_at store.now (root_address head))) }
    ensures size { length words.new ≡ length words.old }
{
    claim_queue(store, words, head.address())
}

// All after the lists of tasks: the packets of the clock, and then the others.
fn claim_devices(store: &Store, words: &mut Claims) -> bool
    requires room { length words.old ≤ length store.now }
    requires walk { CanWalk store.now task_link first_task }
    ensures { IsTrue result ↔ Can (DevicesEnd store.now) words.old (device_rest store.now) }
{
    if !claim_device(store, words, RootField::ClockQueue) {
        return false;
    }
    claim_from_keyboard(store, words)
}

// The packets of the keyboard, and all after them.
fn claim_from_keyboard(store: &Store, words: &mut Claims) -> bool
    requires room { length words.old ≤ length store.now }
    requires walk { CanWalk store.now task_link first_task }
    ensures { IsTrue result ↔ Can (KeyboardEnds store.now) words.old (keyboard_rest store.now) }
{
    if !claim_device(store, words, RootField::KeyQueue) {
        return false;
    }
    claim_from_output(store, words)
}

// The packets of the output, and all after them.
fn claim_from_output(store: &Store, words: &mut Claims) -> bool
    requires room { length words.old ≤ length store.now }
    requires walk { CanWalk store.now task_link first_task }
    ensures { IsTrue result ↔ Can (OutputEnds store.now) words.old (output_rest store.now) }
{
    if !claim_device(store, words, RootField::OutputQueue) {
        return false;
    }
    claim_residents(store, words)
}
