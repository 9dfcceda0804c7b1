// Laws over the definitions alone.
ghost use Rattle.std.specs.Prelude.{◌≡◌, List, ℕ};
ghost use Rattle.kernel_model.specs.KernelRecord.Kernel.{Console};
ghost use Rattle.kernel_model.specs.KernelRecord.Lists.{Lists};
ghost use Rattle.resident_tasks.specs.ConsoleHandler.ConsoleTurn.{LineFits, all_parts};
ghost use Rattle.resident_tasks.specs.ConsoleHandler.TurnParts.{begun};

use crate::console_handler::requests::{BAD_BUFFER, READ_LINE, WRITE};

/// The types of the console's requests, and the code of one whose buffer may not be read, or written.
pub fn number_law()
    ensures types { (READ_LINE ≡ 1) × (WRITE ≡ 2) }
    ensures code { BAD_BUFFER ≡ 30 }
{}

/// After a turn too the line is finished exactly where the key packet is on no queue, and then no read waits.
pub fn keys_law()
    ensures { (id : ℕ) (s : List ℕ) (l : Lists) (c : Console) (k : List ℕ) → LineFits l c
        → LineFits (all_parts id (begun s l c k)).lists (all_parts id (begun s l c k)).console }
{}
