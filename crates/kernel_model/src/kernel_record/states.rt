// What the state of a task says, word 4 of its task block.
ghost use Rattle.std.specs.Prelude.{◌≡◌};
ghost use Rattle.kernel_model.specs.KernelRecord.Task.{field_of_state, is_held_state};

use crate::kernel_record::numbers::HELD;

/// Whether the state is that of a held task.
pub fn is_held_state(state: u32) -> bool
    ensures { result ≡ is_held_state state }
{
    state / HELD % 2 == 1
}

/// The field of the state, without the bits that say that packets wait and that the task is held.
pub fn field_of_state(state: u32) -> u32
    ensures { result ≡ field_of_state state }
{
    state - state % 4
}
