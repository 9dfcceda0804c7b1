// What a machine with a kernel consists of.

use crate::running_machine::script::Script;
use arrayvec::ArrayVec;
use kernel_devices::Tty;
use kernel_model::ByteKinds;
use ram_disc::Disc;
use resident_tasks::Pipes;
use resident_tasks::console_handler::ConsoleState;
use shell::ShellState;
use word_store::{Regs, Store};

/// A machine with a kernel, at one moment.
#[derive(Drop)]
pub struct Parts {
    /// The words, and with them the kernel.
    pub store: Store,
    /// The registers of the running task.
    pub regs: Regs,
    /// Which words are the kernel's.
    pub kinds: ByteKinds,
    /// The bytes that are typed ahead.
    pub tty: Tty,
    /// The files, and the streams that are open on them.
    pub disc: Disc,
    /// The file handler's buffer, of which no turn but its own knows what is there.
    pub bytes: ArrayVec<u8, 4096>,
    /// The console's line.
    pub console: ConsoleState,
    /// What the shell does next, and its line.
    pub shell: ShellState,
    /// The pipes between tasks.
    pub pipes: Pipes,
    /// The keys that are still to come.
    pub keys: Script,
    /// The steps taken so far.
    pub step: u64,
    /// The steps from one tick to the next.
    pub period: u32,
}
