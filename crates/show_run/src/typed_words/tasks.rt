// The flags of tasks.

use kernel_lists::{TcbField, field};
use run_names::{block_of_task, push_flags};
use std::alloc::AllocError;
use tool_texts::Said::{Bytes, Number};
use tool_texts::push_sentence;
use tripos_machine::Machine;
use word_store::Store;

/// The highest number of a task in any version.
const HIGHEST: u32 = 63;

/// Adds the flags of the tasks that have some. A bare machine has no tasks.
pub fn push_all_flags(text: &mut Vec<u8>, machine: &Machine) -> Result<(), AllocError> {
    if machine.kernel_parts().is_none() {
        return Ok(());
    }
    for id in 1..=HIGHEST {
        push_flags_of(text, id, flags_of(machine.store(), id))?;
    }
    Ok(())
}

// The flags of a task; none where there is no such task.
fn flags_of(store: &Store, id: u32) -> u32 {
    match block_of_task(store, id) {
        0 => 0,
        block => field(store, block, TcbField::Flags),
    }
}

// Adds the flags of a task, if it has some.
fn push_flags_of(text: &mut Vec<u8>, id: u32, flags: u32) -> Result<(), AllocError> {
    if flags == 0 {
        return Ok(());
    }
    push_sentence(
        text,
        &[
            Bytes(b"  the flags of task "),
            Number(u64::from(id)),
            Bytes(b" are "),
        ],
    )?;
    push_flags(text, flags)?;
    push_sentence(text, &[Bytes(b"\n")])
}
