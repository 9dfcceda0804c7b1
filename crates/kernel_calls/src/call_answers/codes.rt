// The codes with which calls are refused.

/// No run of free blocks is large enough.
pub const NO_ROOM: u32 = 1;

/// There is no such task.
pub const NO_TASK: u32 = 2;

/// The packet's link says that it is queued.
pub const LINK_IN_USE: u32 = 3;

/// Neither a task nor a device has the number.
pub const NO_DESTINATION: u32 = 4;

/// The packet's words are not data of one used block, or one of them is the kernel's.
pub const MISPLACED: u32 = 5;

/// No block of a user begins its data there.
pub const NO_USER_BLOCK: u32 = 6;

/// A queued packet lies in the block.
pub const PACKET_INSIDE: u32 = 7;

/// Another task has the priority.
pub const PRIORITY_TAKEN: u32 = 8;

/// It is no priority.
pub const NO_PRIORITY: u32 = 9;

/// Tasks have all numbers.
pub const NO_FREE_ID: u32 = 10;

/// The task is not dead.
pub const NOT_DEAD: u32 = 11;

/// The task's work queue is not empty.
pub const QUEUE_NOT_EMPTY: u32 = 12;

/// A packet that the task sent is still queued for a device or a resident.
pub const PACKET_OUT: u32 = 13;

/// The task, or the packet, is a resident's.
pub const RESIDENT: u32 = 14;

/// The task is not held.
pub const NOT_HELD: u32 = 15;

/// The task is held already.
pub const HELD_ALREADY: u32 = 16;

/// There is no module at the address.
pub const NO_MODULE: u32 = 17;

/// A hunk of the module has a higher number of a global than there are.
pub const GLOBALS_TOO_HIGH: u32 = 18;

/// The packet is on none of the queues.
pub const NOT_QUEUED: u32 = 19;

/// No run of free blocks is large enough for the coroutine.
pub const NO_COROUTINE_ROOM: u32 = 20;

/// The task has no such coroutine.
pub const NO_COROUTINE: u32 = 21;

/// The coroutine has a parent.
pub const HAS_PARENT: u32 = 22;

/// No coroutine is current, so there is no parent.
pub const NO_PARENT: u32 = 23;

/// A queued packet lies in the coroutine's block.
pub const PACKET_IN_COROUTINE: u32 = 24;

/// The task has coroutines.
pub const HAS_COROUTINES: u32 = 25;

/// A task has the module.
pub const MODULE_IN_USE: u32 = 26;

/// The task has as many modules as it may have.
pub const MODULES_FULL: u32 = 28;
