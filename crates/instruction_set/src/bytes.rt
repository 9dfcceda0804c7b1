// Access to single bytes.
ghost use Rattle.std.specs.Prelude.{◌≡◌, ◌<◌};
ghost use Rattle.instruction_set.specs.Change.{byte_place, get_byte, put_byte};
ghost use Rattle.instruction_set.specs.Writes.{seen};

use crate::Fault;
use crate::changes::{Change, read, set_a, write};
use word_store::{Regs, Store, add, mul};

/// The byte address of byte i of the words from x on.
#[inline(always)]
pub fn byte_place(x: u32, i: u32) -> u32
    ensures { result ≡ byte_place x i }
{
    add(mul(4, x), i)
}

#[inline(always)]
pub fn get_byte(store: &Store, r: Regs, x: u32, i: u32) -> Result<Change, Fault>
    ensures { seen result ≡ get_byte store.now r x i }
{
    let place = byte_place(x, i);
    let w = read(store, place / 4)?;
    set_a(r, w.to_le_bytes()[(place % 4) as usize] as u32)
}

#[inline(always)]
pub fn put_byte(store: &Store, r: Regs, x: u32, i: u32, c: u32) -> Result<Change, Fault>
    requires { c < 256 }
    ensures { seen result ≡ put_byte store.now r x i c }
{
    let place = byte_place(x, i);
    let w = store.get(place / 4).ok_or(Fault {
        code: 4,
        address: place / 4,
    })?;
    let mut bytes = w.to_le_bytes();
    bytes[(place % 4) as usize] = c as u8;
    write(r, place / 4, u32::from_le_bytes(bytes))
}
