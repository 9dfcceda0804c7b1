// What a guest asks of the kernel: a call, with its arguments.
ghost use Rattle.std.specs.Prelude.{◌≡◌, ◌<◌};
ghost use Rattle.kernel_calls.specs.CallNumbers.{argument, call_of, call_numbered};

use kernel_lists::{RootField, root};
use word_store::{Regs, Store, add};

/// A kernel call. Its arguments are words.
#[derive(Clone, Copy)]
pub enum KernelCall {
    /// Call 0: the machine stops with the result.
    Quit {
        /// The result of the machine.
        result: u32,
    },
    /// Call 1: a block with the data words 0 to `highest`.
    Getvec {
        /// The index of the block's last data word.
        highest: u32,
    },
    /// Call 2: the block is given back.
    Freevec {
        /// The address of the block's data, in words.
        block: u32,
    },
    /// Call 3: a task of the module, with a stack up to the index `highest`.
    CreateTask {
        /// The address of the module, in words.
        module: u32,
        /// The index of the stack's last word.
        highest: u32,
        /// The priority of the task.
        priority: u32,
    },
    /// Call 4: the task with the number goes.
    DeleteTask {
        /// The number of the task.
        id: u32,
    },
    /// Call 5: it gets the priority.
    ChangePri {
        /// The number of the task.
        id: u32,
        /// The priority that it gets.
        priority: u32,
    },
    /// Call 6: it gets these flags, beside those that it has.
    SetFlags {
        /// The number of the task.
        id: u32,
        /// The flags, a bit each.
        flags: u32,
    },
    /// Call 7: the caller's flags among these are answered and cleared.
    TestFlags {
        /// The flags that are asked about, a bit each.
        mask: u32,
    },
    /// Call 8: the task is held.
    Hold {
        /// The number of the task.
        id: u32,
    },
    /// Call 9: it is released.
    Release {
        /// The number of the task.
        id: u32,
    },
    /// Call 10: the caller's next packet.
    TaskWait,
    /// Call 11: the packet is sent to whom its word 1 names.
    Qpkt {
        /// The address of the packet, in words.
        packet: u32,
    },
    /// Call 12: it is taken off the queue of the task or device, or the caller's.
    Dqpkt {
        /// The number of a task or a device.
        id: u32,
        /// The address of the packet, in words.
        packet: u32,
    },
    /// Call 13: the module goes.
    Unload {
        /// The address of the module, in words.
        module: u32,
    },
    /// Call 14: a coroutine of the caller.
    CreateCo {
        /// The byte address at which it begins.
        function: u32,
        /// The index of its stack's last word.
        highest: u32,
    },
    /// Call 15: the coroutine goes.
    DeleteCo {
        /// The address of the coroutine, in words.
        coroutine: u32,
    },
    /// Call 16: it is called.
    CallCo {
        /// The address of the coroutine, in words.
        coroutine: u32,
        /// What it gets.
        value: u32,
    },
    /// Call 17: it is resumed in the place of the current one.
    ResumeCo {
        /// The address of the coroutine, in words.
        coroutine: u32,
        /// What it gets.
        value: u32,
    },
    /// Call 18: the current one waits.
    CoWait {
        /// What its parent gets.
        value: u32,
    },
    /// Call 19: a byte goes to the console.
    Wrch {
        /// The byte, its low 8 bits.
        character: u32,
    },
    /// Call 20: the product of two numbers, divided by the third.
    MulDiv {
        /// The first factor.
        a: u32,
        /// The second factor.
        b: u32,
        /// The divisor.
        c: u32,
    },
    /// Call 21, in version 2 alone: the task gets one more module.
    AddModule {
        /// The number of the task.
        id: u32,
        /// The address of the module, in words.
        module: u32,
    },
}

/// How a call ends.
#[derive(Clone, Copy)]
pub enum CallOutcome {
    /// It was made or refused, and the caller goes on.
    Done,
    /// The caller waits for a packet.
    Waits,
    /// The machine stops with the result.
    Quit(u32),
    /// There is no call of the number; nothing was changed.
    Unknown,
    /// The number or an argument would be outside the store, at this address; nothing was changed.
    Outside(u32),
}

/// The call that a SYS makes: its number is the word P!3, and its arguments follow. All are read before it is made. Else `Unknown`, where
/// the machine has no call of the number, or `Outside`, where the number or an argument would be outside the store.
pub fn read_call(store: &Store, regs: Regs) -> Result<KernelCall, CallOutcome>
    ensures { result ≡ call_of store.now regs }
{
    let number = argument(store, regs, 0)?;
    call_numbered(store, regs, number)
}

// The call of the number.
fn call_numbered(store: &Store, regs: Regs, number: u32) -> Result<KernelCall, CallOutcome>
    ensures { result ≡ call_numbered store.now regs number }
{
    match number {
        0 => Ok(KernelCall::Quit {
            result: argument(store, regs, 1)?,
        }),
        1 => Ok(KernelCall::Getvec {
            highest: argument(store, regs, 1)?,
        }),
        2 => Ok(KernelCall::Freevec {
            block: argument(store, regs, 1)?,
        }),
        3 => Ok(KernelCall::CreateTask {
            module: argument(store, regs, 1)?,
            highest: argument(store, regs, 2)?,
            priority: argument(store, regs, 3)?,
        }),
        4 => Ok(KernelCall::DeleteTask {
            id: argument(store, regs, 1)?,
        }),
        5 => Ok(KernelCall::ChangePri {
            id: argument(store, regs, 1)?,
            priority: argument(store, regs, 2)?,
        }),
        6 => Ok(KernelCall::SetFlags {
            id: argument(store, regs, 1)?,
            flags: argument(store, regs, 2)?,
        }),
        7 => Ok(KernelCall::TestFlags {
            mask: argument(store, regs, 1)?,
        }),
        8 => Ok(KernelCall::Hold {
            id: argument(store, regs, 1)?,
        }),
        9 => Ok(KernelCall::Release {
            id: argument(store, regs, 1)?,
        }),
        10 => Ok(KernelCall::TaskWait),
        11 => Ok(KernelCall::Qpkt {
            packet: argument(store, regs, 1)?,
        }),
        12 => Ok(KernelCall::Dqpkt {
            id: argument(store, regs, 1)?,
            packet: argument(store, regs, 2)?,
        }),
        13 => Ok(KernelCall::Unload {
            module: argument(store, regs, 1)?,
        }),
        14 => Ok(KernelCall::CreateCo {
            function: argument(store, regs, 1)?,
            highest: argument(store, regs, 2)?,
        }),
        15 => Ok(KernelCall::DeleteCo {
            coroutine: argument(store, regs, 1)?,
        }),
        16 => Ok(KernelCall::CallCo {
            coroutine: argument(store, regs, 1)?,
            value: argument(store, regs, 2)?,
        }),
        17 => Ok(KernelCall::ResumeCo {
            coroutine: argument(store, regs, 1)?,
            value: argument(store, regs, 2)?,
        }),
        18 => Ok(KernelCall::CoWait {
            value: argument(store, regs, 1)?,
        }),
        19 => Ok(KernelCall::Wrch {
            character: argument(store, regs, 1)?,
        }),
        20 => Ok(KernelCall::MulDiv {
            a: argument(store, regs, 1)?,
            b: argument(store, regs, 2)?,
            c: argument(store, regs, 3)?,
        }),
        21 if root(store, RootField::Version) == 2 => Ok(KernelCall::AddModule {
            id: argument(store, regs, 1)?,
            module: argument(store, regs, 2)?,
        }),
        _ => Err(CallOutcome::Unknown),
    }
}

// Argument i, of which argument 0 is the call's number.
fn argument(store: &Store, regs: Regs, i: u32) -> Result<u32, CallOutcome>
    requires { i < 4 }
    ensures { result ≡ argument store.now regs i }
{
    let at = add(regs.p, 3 + i);
    store.get(at).ok_or(CallOutcome::Outside(at))
}
