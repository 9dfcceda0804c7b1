// What the next instruction writes.
ghost use Rattle.std.specs.Prelude.{◌≡◌, ◌<◌, ℕ, Bool, List};
ghost use Rattle.word_store.specs.declared.registers.Regs.{Regs as RegsValue};
ghost use Rattle.instruction_set.specs.Instruction.{instruction, written};
ghost use Rattle.instruction_set.specs.NextWrites.{effect_writes, next_writes, writes_made};
ghost use Rattle.instruction_set.specs.Writes.{list_of, seen};

use crate::Fault;
use crate::bytes::put_byte;
use crate::changes::{Change, write, write_through};
use crate::effects::next;
use crate::frames::{enter, enter_global};
use crate::instruction_table::Effect;
use crate::operand_forms::{Instr, decode};
use crate::writes::{Writes, first_fault};
use word_store::{Guard, Regs, Store, add};

/// What the instruction at PC writes, told before it is executed: nothing where it is a fault or a call, or where it writes no word.
pub fn next_writes<X: Guard>(store: &Store, regs: Regs, guard: &X) -> Writes
    requires byte { regs.c < 256 }
    requires guard { X.can_guard guard.now store.now }
    ensures { list_of result ≡ next_writes (X.marks guard.now store.now) store.now regs }
{
    if regs.pc == 0 {
        return Writes::Nothing;
    }
    match decode(store, regs.pc) {
        Ok(instr) => effect_writes(store, regs, guard, instr),
        Err(_) => Writes::Nothing,
    }
}

/// The words after an instruction are those before it with what it writes.
pub fn next_writes_law()
    ensures { (marks : ℕ → Bool) (words : List ℕ) (r : RegsValue)
        → written words (next_writes marks words r) ≡ (instruction marks words r).words }
{}

// What the effect of a decoded instruction writes.
#[tactic(auto, unfolding(crate::specs::NextWrites::effect_writes))]
fn effect_writes<X: Guard>(store: &Store, regs: Regs, guard: &X, i: Instr) -> Writes
    requires byte { regs.c < 256 }
    requires guard { X.can_guard guard.now store.now }
    ensures { list_of result ≡ effect_writes (X.marks guard.now store.now) store.now regs i }
{
    let r = next(&regs, i.length);
    let n = i.operand;
    let change = match i.effect {
        Effect::StoreP => write(r, add(r.p, n), r.a),
        Effect::StoreG => write(r, add(r.g, n), r.a),
        Effect::StoreG0 => write_through(store, r, add(r.g, n), 0, r.a),
        Effect::StorePk(k) => write_through(store, r, add(r.p, n), k, r.a),
        Effect::StoreTarget => write(r, i.target / 4, r.a),
        Effect::St => write(r, add(r.a, n), r.b),
        Effect::StP => write_through(store, r, add(r.p, n), r.a, r.b),
        Effect::Pbyt => put_byte(store, r, r.b, r.a, r.c),
        Effect::Xpbyt => put_byte(store, r, r.a, r.b, r.c),
        Effect::Call => enter(r, add(r.p, n), r.a, r.b, r.pc),
        Effect::CallG(k) => enter_global(store, r, add(r.g, n), k, r.pc),
        _ => return Writes::Nothing,
    };
    writes_made(store, guard, change)
}

// The writes of a change that is made, if it can be made.
fn writes_made<X: Guard>(store: &Store, guard: &X, change: Result<Change, Fault>) -> Writes
    requires { X.can_guard guard.now store.now }
    ensures { list_of result
        ≡ writes_made (X.marks guard.now store.now) store.now (seen change) }
{
    match change {
        Ok(change) => match first_fault(store, guard, change.writes) {
            Some(_) => Writes::Nothing,
            None => change.writes,
        },
        Err(_) => Writes::Nothing,
    }
}
