// Where an instruction writes.
ghost use Rattle.std.specs.Prelude.{◌≡◌, Bool, ℕ, slice_get};
ghost use Rattle.instruction_set.specs.Instruction.{instruction};
ghost use Rattle.instruction_set.specs.Places.{DifferAt, addresses, place_from, places_by};

use crate::bytes::byte_place;
use crate::instruction_table::Effect;
use crate::operand_forms::{Instr, decode};
use word_store::{Regs, Store, add};

/// The words that an instruction may write.
#[derive(Clone, Copy)]
pub enum Places {
    /// It writes no word.
    Nowhere,
    /// The one at this address.
    Word(u32),
    /// The four of a stack frame, of which the first is at this address.
    Frame(u32),
}

/// The words that the instruction at PC may write: whatever the guard marks, every other word stays as it is. It is told before the
/// instruction is executed, for those who keep what it overwrites.
pub fn written_places(store: &Store, regs: Regs) -> Places
    ensures { (marks : ℕ → Bool)
        → DifferAt (addresses result) store.now (instruction marks store.now regs).words }
{
    if regs.pc == 0 {
        return Places::Nowhere;
    }
    match decode(store, regs.pc) {
        Ok(instr) => places_by(store, regs, instr),
        Err(_) => Places::Nowhere,
    }
}

// Those of a decoded instruction.
fn places_by(store: &Store, r: Regs, i: Instr) -> Places
    ensures { result ≡ places_by i.effect store.now r i.operand i.target }
{
    let n = i.operand;
    match i.effect {
        Effect::StoreP => Places::Word(add(r.p, n)),
        Effect::StoreG => Places::Word(add(r.g, n)),
        Effect::StoreG0 => place_from(store.get(add(r.g, n)), 0),
        Effect::StorePk(k) => place_from(store.get(add(r.p, n)), k),
        Effect::StoreTarget => Places::Word(i.target / 4),
        Effect::St => Places::Word(add(r.a, n)),
        Effect::StP => place_from(store.get(add(r.p, n)), r.a),
        Effect::Pbyt => Places::Word(byte_place(r.b, r.a) / 4),
        Effect::Xpbyt => Places::Word(byte_place(r.a, r.b) / 4),
        Effect::Call => Places::Frame(add(r.p, n)),
        Effect::CallG(k) => Places::Frame(add(r.p, k)),
        _ => Places::Nowhere,
    }
}

// Word k from where a pointer points.
fn place_from(pointer: Option<u32>, k: u32) -> Places
    ensures { result ≡ place_from pointer k }
{
    match pointer {
        Some(x) => Places::Word(add(x, k)),
        None => Places::Nowhere,
    }
}
