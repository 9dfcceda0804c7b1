// The switches by label and by key.
ghost use Rattle.std.specs.Prelude.{◌≡◌, ◌<◌};
ghost use Rattle.instruction_set.specs.Switch.{halfword, jump_by, search_from, switch_by_key, switch_by_label, table_byte};
ghost use Rattle.instruction_set.specs.Writes.{seen};

use crate::Fault;
use crate::changes::Change;
use crate::jumps::jump;
use crate::operand_forms::half_offset;
use word_store::{Regs, Store, add};

#[inline(always)]
fn table_byte(store: &Store, a: u32) -> Result<u8, Fault>
    ensures { result ≡ table_byte store.now a }
{
    store.get_byte(a).ok_or(Fault {
        code: 3,
        address: a / 4,
    })
}

#[inline(always)]
fn halfword(store: &Store, a: u32) -> Result<u16, Fault>
    ensures { result ≡ halfword store.now a }
{
    let low = table_byte(store, a)?;
    let high = table_byte(store, add(a, 1))?;
    Ok(u16::from_le_bytes([low, high]))
}

#[inline(always)]
fn jump_by(store: &Store, r: Regs, a: u32) -> Result<Change, Fault>
    ensures { seen result ≡ jump_by store.now r a }
{
    let h = halfword(store, a)?;
    jump(r, add(a, half_offset(h)))
}

#[inline(always)]
pub fn switch_by_label(store: &Store, r: Regs, t: u32) -> Result<Change, Fault>
    ensures { seen result ≡ switch_by_label store.now r t }
{
    let count = halfword(store, t)? as u32;
    let a = if r.a < count {
        add(add(t, 4), 2 * r.a)
    } else {
        add(t, 2)
    };
    jump_by(store, r, a)
}

#[inline(always)]
pub fn switch_by_key(store: &Store, r: Regs, t: u32) -> Result<Change, Fault>
    ensures { seen result ≡ switch_by_key store.now r t }
{
    let count = halfword(store, t)? as u32;
    search(store, r, t, count)
}

// Finds the pair of the key that is A, among so many.
#[inline(always)]
fn search(store: &Store, r: Regs, t: u32, count: u32) -> Result<Change, Fault>
    requires { count < 65536 }
    ensures { seen result ≡ search_from count store.now r t count 1 }
{
    let mut i = 1u32;
    while i <= count {
        let key = halfword(store, add(t, 4 * i))? as u32;
        if r.a == key {
            return jump_by(store, r, add(t, 4 * i + 2));
        }
        i = if r.a < key { 2 * i } else { 2 * i + 1 };
    }
    jump_by(store, r, add(t, 2))
}
