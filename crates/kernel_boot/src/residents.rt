// A kernel with residents.
ghost use Rattle.std.specs.Prelude.{◌≡◌, ◌≤◌, ◌+◌, [], IsTrue, if◌then◌else◌, length, replicate};
ghost use Rattle.kernel_lists.specs.OwnedWords.Owned.{written};
ghost use Rattle.kernel_model.specs.KernelRecord.Ranges.{IsVersion, is_period, is_store_size};
ghost use Rattle.kernel_model.specs.KernelRecord.ChangedStore.{IsChanged};
ghost use Rattle.kernel_boot.specs.Private.BootWords.{block_pairs, chain_pairs, fault_pairs, key_pairs, reporter_pairs, shell_pairs, waiting_pairs};
ghost use Rattle.kernel_boot.specs.ResidentKernel.{resident_block_size, resident_lists};

use crate::start::write_root;
use kernel_lists::{FIRST_BLOCK, NO_QUEUE, RootField, TABLE, TcbField, set_field, set_root};
use kernel_model::numbers::{
    CONSOLE, FAULT_PACKET, FILE_HANDLER, KEY_PACKET, REPORTER, RESIDENT_DATA, SENDER, SHELL,
    SHELL_PACKET, WAITS,
};
use word_store::Store;

/// A resident: its number, the address of its task block, and its priority.
#[derive(Clone, Copy)]
struct Resident {
    /// Its number.
    id: u32,
    /// The address of its task block, in words.
    address: u32,
    /// Its priority.
    priority: u32,
}

const SHELL_TASK: Resident = Resident {
    id: SHELL,
    address: RESIDENT_DATA,
    priority: 1000,
};

const REPORTER_TASK: Resident = Resident {
    id: REPORTER,
    address: 287,
    priority: 3000,
};

const CONSOLE_TASK: Resident = Resident {
    id: CONSOLE,
    address: 224,
    priority: 6000,
};

const FILE_TASK: Resident = Resident {
    id: FILE_HANDLER,
    address: 247,
    priority: 5000,
};

/// The state of a task that waits, and has packets.
const WAITS_WITH_PACKETS: u32 = WAITS + 1;

/// Makes a kernel with residents in a store of zeros. The console, the file handler, the reporter of faults, if it is asked
/// for, and the shell wait in this order. Their block is the first one, of 88 words, or of 116 with that reporter, and the rest
/// is one free block. The console's key packet is at the keyboard, and the shell's own packet on its queue; the fault packet is
/// on none. The clock ticks each `period` steps. No other words change.
pub fn make_resident_kernel(store: &mut Store, version: u32, period: u32, reporter: bool)
    requires zeros { store.old ≡ replicate (length store.old) 0 }
    requires version { IsVersion version }
    requires size { IsTrue (is_store_size version (length store.old)) }
    requires period { IsTrue (is_period period) }
    ensures { IsChanged store.old store.new
        (resident_lists version period (length store.old) reporter) [] }
{
    write_root(store, version, period);
    write_blocks(store, block_size(reporter));
    write_chain(store, reporter);
    queue_key_packet(store);
    queue_shell_packet(store);
    free_fault_packet(store, reporter);
}

fn block_size(reporter: bool) -> u32
    ensures { result ≡ resident_block_size reporter }
{
    if reporter { 116 } else { 88 }
}

// Writes the size words of the residents' block and of the free block after it.
fn write_blocks(store: &mut Store, block: u32)
    requires room { 202 + block ≤ length store.old }
    requires small { block ≤ 116 }
    ensures { store.new ≡ written (block_pairs (length store.old) block) store.old }
{
    let free = store.size() - 202 - block;
    set_root(store, RootField::Residents, FIRST_BLOCK + 1);
    store.set(FIRST_BLOCK, block);
    store.set(FIRST_BLOCK + block, free + 1);
}

// Writes the residents' task blocks, in falling priority.
fn write_chain(store: &mut Store, reporter: bool)
    ensures { store.new ≡ written (chain_pairs reporter) store.old }
{
    set_root(store, RootField::FirstTask, CONSOLE_TASK.address);
    wait(store, CONSOLE_TASK, FILE_TASK.address);
    wait(store, FILE_TASK, below_files(reporter));
    write_reporter(store, reporter);
    wait(store, SHELL_TASK, 0);
}

fn below_files(reporter: bool) -> u32
    ensures { result ≡ if reporter then 287 else 201 }
{
    if reporter {
        REPORTER_TASK.address
    } else {
        SHELL_TASK.address
    }
}

fn write_reporter(store: &mut Store, reporter: bool)
    ensures { store.new ≡ written (reporter_pairs reporter) store.old }
{
    if reporter {
        wait(store, REPORTER_TASK, SHELL_TASK.address);
    }
}

// Writes the task block of a resident that waits, with its entry in the table.
fn wait(store: &mut Store, task: Resident, next: u32)
    requires { task.id ≤ 4 }
    ensures { store.new
        ≡ written (waiting_pairs task.id task.address task.priority next) store.old }
{
    set_field(store, task.address, TcbField::Link, next);
    set_field(store, task.address, TcbField::Id, task.id);
    set_field(store, task.address, TcbField::Pri, task.priority);
    set_field(store, task.address, TcbField::State, WAITS);
    store.set(TABLE + task.id, task.address);
}

fn queue_key_packet(store: &mut Store)
    ensures { store.new ≡ written key_pairs store.old }
{
    set_root(store, RootField::KeyQueue, KEY_PACKET);
    store.set(KEY_PACKET + SENDER, CONSOLE);
}

fn queue_shell_packet(store: &mut Store)
    ensures { store.new ≡ written shell_pairs store.old }
{
    set_field(store, SHELL_TASK.address, TcbField::Queue, SHELL_PACKET);
    set_field(
        store,
        SHELL_TASK.address,
        TcbField::State,
        WAITS_WITH_PACKETS,
    );
    store.set(SHELL_PACKET + SENDER, SHELL);
}

fn free_fault_packet(store: &mut Store, reporter: bool)
    ensures { store.new ≡ written (fault_pairs reporter) store.old }
{
    if reporter {
        store.set(FAULT_PACKET, NO_QUEUE);
    }
}
