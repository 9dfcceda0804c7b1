// Stack frames: calls and the return from them.
ghost use Rattle.std.specs.Prelude.{◌≡◌};
ghost use Rattle.instruction_set.specs.Change.{enter, enter_global, leave};
ghost use Rattle.instruction_set.specs.Writes.{seen};

use crate::Fault;
use crate::changes::{Change, keep, read};
use crate::writes::Writes;
use word_store::{Regs, Store, add};

/// Calls a function with its argument, in a frame at f; `next` is where it returns to.
#[inline(always)]
pub fn enter(r: Regs, f: u32, function: u32, argument: u32, next: u32) -> Result<Change, Fault>
    ensures { seen result ≡ enter r f function argument next }
{
    Ok(Change {
        regs: Regs {
            p: f,
            pc: function,
            a: argument,
            ..r
        },
        writes: Writes::Frame {
            at: f,
            caller: r.p,
            next,
            function,
            argument,
        },
    })
}

#[inline(always)]
pub fn enter_global(store: &Store, r: Regs, a: u32, n: u32, next: u32) -> Result<Change, Fault>
    ensures { seen result ≡ enter_global store.now r a n next }
{
    let function = read(store, a)?;
    enter(r, add(r.p, n), function, r.a, next)
}

#[inline(always)]
pub fn leave(store: &Store, r: Regs) -> Result<Change, Fault>
    ensures { seen result ≡ leave store.now r }
{
    let pc = read(store, add(r.p, 1))?;
    let p = read(store, r.p)?;
    keep(Regs { pc, p, ..r })
}
