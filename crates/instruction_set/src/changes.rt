// The forms that most effects share: registers, loads and stores.
ghost use Rattle.std.specs.Prelude.{◌≡◌};
ghost use Rattle.instruction_set.specs.Change.{add_at, divide, keep, load, load_at, load_through, read, set_a, set_a_at, set_a_through, write, write_through};
ghost use Rattle.instruction_set.specs.Writes.{seen};

use crate::Fault;
use crate::writes::Writes;
use word_store::{Regs, Store, add};

/// New registers, and the words to write.
#[derive(Clone, Copy)]
pub struct Change {
    /// The registers.
    pub regs: Regs,
    /// The words that are written.
    pub writes: Writes,
}

#[inline(always)]
pub fn read(store: &Store, a: u32) -> Result<u32, Fault>
    ensures { result ≡ read store.now a }
{
    store.get(a).ok_or(Fault {
        code: 3,
        address: a,
    })
}

#[inline(always)]
pub fn keep(regs: Regs) -> Result<Change, Fault>
    ensures { seen result ≡ keep regs }
{
    Ok(Change {
        regs,
        writes: Writes::Nothing,
    })
}

#[inline(always)]
pub fn load(r: Regs, e: u32) -> Result<Change, Fault>
    ensures { seen result ≡ load r e }
{
    keep(Regs { b: r.a, a: e, ..r })
}

#[inline(always)]
pub fn set_a(r: Regs, e: u32) -> Result<Change, Fault>
    ensures { seen result ≡ set_a r e }
{
    keep(Regs { a: e, ..r })
}

#[inline(always)]
pub fn write(regs: Regs, at: u32, word: u32) -> Result<Change, Fault>
    ensures { seen result ≡ write regs at word }
{
    Ok(Change {
        regs,
        writes: Writes::Word { at, word },
    })
}

#[inline(always)]
pub fn load_at(store: &Store, r: Regs, a: u32) -> Result<Change, Fault>
    ensures { seen result ≡ load_at store.now r a }
{
    let w = read(store, a)?;
    load(r, w)
}

#[inline(always)]
pub fn load_through(store: &Store, r: Regs, a: u32, k: u32) -> Result<Change, Fault>
    ensures { seen result ≡ load_through store.now r a k }
{
    let x = read(store, a)?;
    load_at(store, r, add(x, k))
}

#[inline(always)]
pub fn add_at(store: &Store, r: Regs, a: u32) -> Result<Change, Fault>
    ensures { seen result ≡ add_at store.now r a }
{
    let w = read(store, a)?;
    set_a(r, add(r.a, w))
}

#[inline(always)]
pub fn set_a_at(store: &Store, r: Regs, a: u32) -> Result<Change, Fault>
    ensures { seen result ≡ set_a_at store.now r a }
{
    let w = read(store, a)?;
    set_a(r, w)
}

#[inline(always)]
pub fn set_a_through(store: &Store, r: Regs, a: u32, k: u32) -> Result<Change, Fault>
    ensures { seen result ≡ set_a_through store.now r a k }
{
    let x = read(store, a)?;
    set_a_at(store, r, add(x, k))
}

#[inline(always)]
pub fn write_through(store: &Store, r: Regs, a: u32, k: u32, w: u32) -> Result<Change, Fault>
    ensures { seen result ≡ write_through store.now r a k w }
{
    let x = read(store, a)?;
    write(r, add(x, k), w)
}

/// A becomes a quotient or a remainder, which a zero divisor has not.
#[inline(always)]
pub fn divide(quotient: Option<u32>, r: Regs, place: u32) -> Result<Change, Fault>
    ensures { seen result ≡ divide quotient r place }
{
    match quotient {
        Some(q) => set_a(r, q),
        None => Err(Fault {
            code: 5,
            address: place,
        }),
    }
}
