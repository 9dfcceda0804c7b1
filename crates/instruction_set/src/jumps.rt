// Jumps and their conditions.
ghost use Rattle.std.specs.Prelude.{◌≡◌};
ghost use Rattle.instruction_set.specs.Change.{holds, jump, jump_if};
ghost use Rattle.instruction_set.specs.Writes.{seen};

use crate::Fault;
use crate::changes::{Change, keep};
use crate::instruction_table::Test;
use word_store::{Regs, signed};

#[inline(always)]
pub fn jump(r: Regs, to: u32) -> Result<Change, Fault>
    ensures { seen result ≡ jump r to }
{
    keep(Regs { pc: to, ..r })
}

#[inline(always)]
pub fn jump_if(condition: bool, r: Regs, to: u32) -> Result<Change, Fault>
    ensures { seen result ≡ jump_if condition r to }
{
    if condition { jump(r, to) } else { keep(r) }
}

#[inline(always)]
pub fn holds(test: Test, x: u32, y: u32) -> bool
    ensures { result ≡ holds test x y }
{
    match test {
        Test::Eq => x == y,
        Test::Ne => x != y,
        Test::Ls => signed(x) < signed(y),
        Test::Gr => signed(y) < signed(x),
        Test::Le => !(signed(y) < signed(x)),
        Test::Ge => !(signed(x) < signed(y)),
    }
}
