// The one walk over the kernel's words, which shows them range by range.
ghost use Rattle.std.specs.Prelude.{◌≡◌, ◌∷◌, ◌++◌, List, [], map, true};
ghost use Rattle.std.specs.List.{AllByRecursion, flat_map};
ghost use Rattle.kernel_lists.specs.LinkedList.Walk.{CanWalk};
ghost use Rattle.kernel_lists.specs.GetvecChain.Tiling.{IsTiled, blocks_in};
ghost use Rattle.kernel_lists.specs.PacketQueue.Queue.{HasQueue};
ghost use Rattle.kernel_lists.specs.TaskBlock.Lists.{module_link, modules_in};
ghost use Rattle.kernel_lists.specs.TaskBlock.RootWords.{first_module, first_task};
ghost use Rattle.kernel_lists.specs.TaskBlock.TaskChain.{task_link, tasks_in};
ghost use Rattle.kernel_model.specs.KernelRecord.Residents.{pending_head};
ghost use Rattle.kernel_model.specs.KernelRecord.KernelRanges.{CanWalkLists, CanWalkTask, IsModuleIn, Words, block_range, console_ranges, coroutine_ranges, fault_ranges, has_reporter, has_residents, kernel_ranges, list_ranges, module_ranges, packet_ranges, packets_at, pending_packets, task_ranges, task_size_in, work_packets, words};

use crate::kernel_record::numbers::{
    COROUTINE_WORDS, FAULT_PACKET, PACKET_WORDS, PENDING_HEAD, REPORTER, RESIDENT_WORDS,
};
use kernel_lists::{
    FIRST_GUEST, RootField, TcbField, blocks, coroutine_list, field, head_words, modules, packets,
    root, tasks,
};
use word_store::{Store, word_at};

/// The first word of the root node, and how many words it and the task table have.
const ROOT: u32 = 100;

const ROOT_WORDS: u32 = 84;

/// How many words there are of the head of the reads that wait for a line, and of the key packet after it.
const CONSOLE_WORDS: u32 = 9;

/// Is shown ranges of words, one after the other.
pub trait Visitor {
    /// It comes from the one state to the other where these ranges are shown.
    ghost shown: { Self → Self → List Words → Type 0 };

    /// Shows so many words from `first` on.
    fn show(&mut self, first: u32, count: u32)
        ensures { shown self.old self.new (words first count ∷ []) };

    /// Where none is shown it stays as it is.
    ghost shown_none: { (v : Self) → shown v v [] };

    /// Ranges may be shown in two parts.
    ghost shown_both: { (u v w : Self) (xs ys : List Words) → shown u v xs → shown v w ys
        → shown u w (xs ++ ys) };
}

/// Shows all words of the kernel.
pub fn show_kernel<V: Visitor>(store: &Store, visitor: &mut V)
    requires { CanWalkLists store.now }
    ensures { V.shown visitor.old visitor.new (kernel_ranges store.now) }
{
    show_lists(store, visitor);
    show_packets(store, visitor);
}

/// Shows the words of all queued packets.
pub fn show_packets<V: Visitor>(store: &Store, visitor: &mut V)
    requires { CanWalkLists store.now }
    ensures { V.shown visitor.old visitor.new (packet_ranges store.now) }
{
    show_work(store, visitor);
    show_queue(store, RootField::ClockQueue.address(), visitor);
    show_queue(store, RootField::KeyQueue.address(), visitor);
    show_queue(store, RootField::OutputQueue.address(), visitor);
    show_pending(store, visitor);
}

// Shows the words of the reads that wait for a line.
fn show_pending<V: Visitor>(store: &Store, visitor: &mut V)
    requires { has_residents store.now ≡ true → HasQueue store.now pending_head }
    ensures { V.shown visitor.old visitor.new (pending_packets store.now) }
{
    if has_residents(store) {
        show_queue(store, PENDING_HEAD, visitor);
    }
}

// Shows the words of the packets that wait for tasks.
fn show_work<V: Visitor>(store: &Store, visitor: &mut V)
    requires chain { CanWalk store.now task_link first_task }
    requires tasks { AllByRecursion (CanWalkTask store.now) (tasks_in store.now) }
    ensures { V.shown visitor.old visitor.new (work_packets store.now) }
{
    for t in tasks(store) {
        show_queue(store, store.address_of(t, TcbField::Queue.index()), visitor);
    }
}

// Shows the words of the packets that are queued at the head.
fn show_queue<V: Visitor>(store: &Store, head: u32, visitor: &mut V)
    requires { HasQueue store.now head }
    ensures { V.shown visitor.old visitor.new (packets_at store.now head) }
{
    for p in packets(store, head) {
        visitor.show(p, PACKET_WORDS);
    }
}

// Shows all words of the kernel but those of packets.
fn show_lists<V: Visitor>(store: &Store, visitor: &mut V)
    requires { CanWalkLists store.now }
    ensures { V.shown visitor.old visitor.new (list_ranges store.now) }
{
    visitor.show(ROOT, ROOT_WORDS);
    visitor.show(store.size() - 2, 1);
    show_blocks(store, visitor);
    show_tasks(store, visitor);
    show_modules(store, visitor);
    show_console(store, visitor);
    show_fault_packet(store, visitor);
}

// Shows the head of the reads that wait for a line, and the key packet.
fn show_console<V: Visitor>(store: &Store, visitor: &mut V)
    ensures { V.shown visitor.old visitor.new (console_ranges store.now) }
{
    if has_residents(store) {
        visitor.show(PENDING_HEAD, CONSOLE_WORDS);
    }
}

// Shows the fault packet.
fn show_fault_packet<V: Visitor>(store: &Store, visitor: &mut V)
    requires { CanWalk store.now task_link first_task }
    ensures { V.shown visitor.old visitor.new (fault_ranges store.now) }
{
    if has_reporter(store) {
        visitor.show(FAULT_PACKET, PACKET_WORDS);
    }
}

// Shows the size words.
fn show_blocks<V: Visitor>(store: &Store, visitor: &mut V)
    requires { IsTiled store.now }
    ensures { V.shown visitor.old visitor.new (map block_range (blocks_in store.now)) }
{
    for block in blocks(store) {
        visitor.show(block.start, 1);
    }
}

// Shows the task blocks and the words of the coroutines.
fn show_tasks<V: Visitor>(store: &Store, visitor: &mut V)
    requires chain { CanWalk store.now task_link first_task }
    requires tasks { AllByRecursion (CanWalkTask store.now) (tasks_in store.now) }
    ensures { V.shown visitor.old visitor.new
        (flat_map (task_ranges store.now) (tasks_in store.now)) }
{
    for t in tasks(store) {
        show_task(store, t, visitor);
    }
}

fn show_task<V: Visitor>(store: &Store, t: u32, visitor: &mut V)
    requires { CanWalkTask store.now t }
    ensures { V.shown visitor.old visitor.new (task_ranges store.now t) }
{
    visitor.show(t, task_size(store, t));
    show_coroutines(store, t, visitor);
}

fn show_coroutines<V: Visitor>(store: &Store, t: u32, visitor: &mut V)
    requires { CanWalkTask store.now t }
    ensures { V.shown visitor.old visitor.new (coroutine_ranges store.now t) }
{
    for c in coroutine_list(store, t) {
        visitor.show(c, COROUTINE_WORDS);
    }
}

fn task_size(store: &Store, t: u32) -> u32
    ensures { result ≡ task_size_in store.now t }
{
    if field(store, t, TcbField::Id) < FIRST_GUEST {
        RESIDENT_WORDS
    } else {
        head_words(store)
    }
}

// Shows each module's words before those of its hunks.
fn show_modules<V: Visitor>(store: &Store, visitor: &mut V)
    requires list { CanWalk store.now module_link first_module }
    requires modules { AllByRecursion (IsModuleIn store.now) (modules_in store.now) }
    ensures { V.shown visitor.old visitor.new
        (flat_map (module_ranges store.now) (modules_in store.now)) }
{
    for m in modules(store) {
        show_module(store, m, visitor);
    }
}

fn show_module<V: Visitor>(store: &Store, m: u32, visitor: &mut V)
    requires { IsModuleIn store.now m }
    ensures { V.shown visitor.old visitor.new (module_ranges store.now m) }
{
    visitor.show(m, 2);
    visitor.show(store.address_of(m, 2), word_at(store, m, 1));
}

fn has_residents(store: &Store) -> bool
    ensures { result ≡ has_residents store.now }
{
    root(store, RootField::Residents) != 0
}

fn has_reporter(store: &Store) -> bool
    requires { CanWalk store.now task_link first_task }
    ensures { result ≡ has_reporter store.now }
{
    for t in tasks(store) {
        if field(store, t, TcbField::Id) == REPORTER {
            return true;
        }
    }
    false
}
