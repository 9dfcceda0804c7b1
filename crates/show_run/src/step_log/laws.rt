// What the numbers are that definitions cite by name. The functions do nothing: their contracts are the laws.
ghost use Rattle.std.specs.Prelude.{◌≡◌, Some};
ghost use Rattle.std.specs.Option.{option_map};
ghost use Rattle.instruction_set.specs.InstructionTable.Table.{entry};
ghost use Rattle.instruction_set.specs.declared.instruction_table.effects.Effect.{Effect};
ghost use Rattle.instruction_set.specs.declared.instruction_table.effects.Effect.TheVariants.{Sys};
ghost use Rattle.show_run.specs.declared.step_log.calls.TheConstants.{SYS};

use crate::step_log::boots::BOOT;
use crate::step_log::packets::MOST_TOLD;

/// The byte of calls is that of the instruction that makes them.
pub fn call_law()
    ensures { option_map (λ e. e.effect) (entry SYS) ≡ Some Sys }
{}

/// Of a step's events the first 64 are looked through for packets, and a boot is step 0, at no tick, of no task and with no PC.
pub fn number_law()
    ensures told { MOST_TOLD ≡ 64 }
    ensures boot { BOOT ≡ record { step = 0; tick = 0; task = 0; pc = 0 } }
{}
