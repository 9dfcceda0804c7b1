// Numbers of the kernel, each in its one place: of tasks and their states, of devices, of the residents' block, and of the words of
// task blocks, coroutines and packets.

use kernel_lists::TcbField;

/// The number of the shell.
pub const SHELL: u32 = 1;

/// The number of the task that reports faults.
pub const REPORTER: u32 = 2;

/// The number of the console.
pub const CONSOLE: u32 = 3;

/// The number of the file handler.
pub const FILE_HANDLER: u32 = 4;

/// The number of the clock, -1.
pub const CLOCK: u32 = 0xffff_ffff;

/// The number of the keyboard, -2.
pub const KEYBOARD: u32 = 0xffff_fffe;

/// The same number with its sign, as events and destinations have it.
pub const SIGNED_KEYBOARD: i32 = -2;

/// The number of the output device, -3.
pub const OUTPUT: u32 = 0xffff_fffd;

/// The number of the queue of the console's reads that wait for a line.
pub const PENDING: u32 = 103;

/// The state of a task that runs. A state has 1 more where packets wait, and 2 more while the task is held.
pub const RUNS: u32 = 0;

/// The state of a task that waits.
pub const WAITS: u32 = 4;

/// The state of a task that was interrupted.
pub const INTERRUPTED: u32 = 8;

/// The state of a dead task. No state of any other task is as large.
pub const DEAD: u32 = 12;

/// What is added to the state of a task while it is held.
pub const HELD: u32 = 2;

/// Where the data of the residents' block begin.
pub const RESIDENT_DATA: u32 = 201;

/// The head of the console's reads that wait for a line.
pub const PENDING_HEAD: u32 = 270;

/// The packet that the console sends to the keyboard.
pub const KEY_PACKET: u32 = 271;

/// The packet that the shell has.
pub const SHELL_PACKET: u32 = 279;

/// The packet that comes to the task that reports faults.
pub const FAULT_PACKET: u32 = 310;

/// The type of that packet.
pub const FAULT_KIND: u32 = 40;

/// The word of a task block that has the code of the task's fault: 0 where it had none, and 256 more once it was reported.
pub const FAULT_WORD: TcbField = TcbField::Extra1;

/// What is added to that word once the fault was reported. Each code is smaller.
pub const REPORTED: u32 = 256;

/// The word of a task block that has the address of that fault.
pub const FAULT_ADDRESS: TcbField = TcbField::Extra2;

/// The most bytes of a line that is typed, and of the one that the shell has.
pub const MOST_LINE: usize = 120;

/// The most bytes that are typed ahead.
pub const MOST_AHEAD: usize = 128;

/// The most bytes that a pipe holds.
pub const MOST_HELD: usize = 1024;

/// One more than the number of the last pipe.
pub const END_OF_PIPES: u32 = 9;

/// How many words a resident's task block has.
pub const RESIDENT_WORDS: u32 = 23;

/// How many words the globals of a task are.
pub const GLOBAL_WORDS: u32 = 1001;

/// How many words of a coroutine are the kernel's.
pub const COROUTINE_WORDS: u32 = 10;

/// How many words of a packet are the kernel's while it is queued.
pub const PACKET_WORDS: u32 = 5;

/// The word of a packet that has its destination, and once it was sent its sender.
pub const SENDER: u32 = 1;

/// The word that has its type.
pub const KIND: u32 = 2;

/// The word that has its first result.
pub const RES1: u32 = 3;

/// The word that has its second result.
pub const RES2: u32 = 4;

/// The word that has its first argument.
pub const FIRST: u32 = 5;

/// The word that has its second argument.
pub const SECOND: u32 = 6;

/// The word that has its third argument.
pub const THIRD: u32 = 7;
