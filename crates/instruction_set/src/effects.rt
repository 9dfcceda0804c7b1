// The effect of a row.
ghost use Rattle.std.specs.Option.{option_map};
ghost use Rattle.std.specs.Prelude.{◌≡◌, ◌<◌};
ghost use Rattle.word_store.specs.Arithmetic.{add};
ghost use Rattle.instruction_set.specs.Instruction.{after};
ghost use Rattle.instruction_set.specs.InstructionTable.Shapes.{shape_of};
ghost use Rattle.instruction_set.specs.InstructionTable.Table.{entry};
ghost use Rattle.instruction_set.specs.RowEffect.{row_effect};

use crate::bytes::{get_byte, put_byte};
use crate::changes::{
    add_at, divide, keep, load, load_at, load_through, set_a, set_a_at, set_a_through, write,
    write_through,
};
use crate::decode_faults::undecoded;
use crate::frames::{enter, enter_global, leave};
use crate::instruction_table::{Effect, Test, shape};
use crate::jumps::{holds, jump, jump_if};
use crate::operand_forms::fetch::operand_at;
use crate::operand_forms::{DecodeEnd, even_above};
use crate::switches::{switch_by_key, switch_by_label};
use crate::writes::settle;
use crate::{Fault, Outcome};
use word_store::{Guard, Regs, Store, add, div, mul, rem, shl, shr, sub};

/// Makes the effect of the row of a function byte, which is at PC, with its operand.
#[inline(always)]
#[tactic(auto, unfolding(crate::specs::Instruction::effected))]
pub fn row_effect<X: Guard>(store: &mut Store, regs: &mut Regs, guard: &X, byte: u8) -> Outcome
    requires byte { regs.old.c < 256 }
    requires guard { X.can_guard guard.now store.old }
    ensures { let marks = X.marks guard.now store.old in
        after result store.new regs.new
        ≡ row_effect marks store.old regs.old byte (option_map shape_of (entry byte)) }
{
    let place = regs.pc;
    let Some(shape) = shape(byte) else {
        return undecoded(DecodeEnd::Undefined(place));
    };
    // Reads the operand. That is in each arm, and not once before them, where the form would be a jump of its own.
    macro_rules! with_operand {
        ($o:ident => $outcome:expr) => {
            match operand_at(&*store, place, shape.form) {
                Ok($o) => $outcome,
                Err(end) => undecoded(end),
            }
        };
    }
    // Makes a change of the registers r, which have PC at the next instruction, by the operand o. It is in each arm, and not
    // once after them, since a change that passes a join of arms is kept in memory. Registers that are copied once before the
    // arms cost a quarter more machine instructions a step.
    macro_rules! make {
        ($r:ident, $o:ident => $change:expr) => {
            with_operand!($o => {
                let $r = next(regs, $o.length);
                settle($change, store, regs, guard)
            })
        };
    }
    match shape.effect {
        Effect::Load => make!(r, o => load(r, o.number)),
        Effect::LoadMinus => make!(r, o => load(r, sub(0, o.number))),
        Effect::LoadP => make!(r, o => load_at(store, r, add(r.p, o.number))),
        Effect::LoadPAddress => make!(r, o => load(r, add(r.p, o.number))),
        Effect::LoadG => make!(r, o => load_at(store, r, add(r.g, o.number))),
        Effect::LoadGAddress => make!(r, o => load(r, add(r.g, o.number))),
        Effect::LoadGk(k) => make!(r, o => load_through(store, r, add(r.g, o.number), k)),
        Effect::LoadPk(k) => make!(r, o => load_through(store, r, add(r.p, o.number), k)),
        Effect::LoadTarget => make!(r, o => load(r, o.target)),
        Effect::LoadAtTarget => make!(r, o => load_at(store, r, o.target / 4)),
        Effect::LoadTargetWord => make!(r, o => load(r, o.target / 4)),
        Effect::StoreP => make!(r, o => write(r, add(r.p, o.number), r.a)),
        Effect::StoreG => make!(r, o => write(r, add(r.g, o.number), r.a)),
        Effect::StoreG0 => make!(r, o => write_through(store, r, add(r.g, o.number), 0, r.a)),
        Effect::StorePk(k) => make!(r, o => write_through(store, r, add(r.p, o.number), k, r.a)),
        Effect::StoreTarget => make!(r, o => write(r, o.target / 4, r.a)),
        Effect::AddP => make!(r, o => add_at(store, r, add(r.p, o.number))),
        Effect::AddG => make!(r, o => add_at(store, r, add(r.g, o.number))),
        Effect::AddN => make!(r, o => set_a(r, add(r.a, o.number))),
        Effect::SubN => make!(r, o => set_a(r, sub(r.a, o.number))),
        Effect::Rv => make!(r, o => set_a_at(store, r, add(r.a, o.number))),
        Effect::RvP => make!(r, o => set_a_through(store, r, add(r.p, o.number), r.a)),
        Effect::St => make!(r, o => write(r, add(r.a, o.number), r.b)),
        Effect::StP => make!(r, o => write_through(store, r, add(r.p, o.number), r.a, r.b)),
        Effect::Gbyt => make!(r, o => get_byte(store, r, r.b, r.a)),
        Effect::Pbyt => make!(r, o => put_byte(store, r, r.b, r.a, r.c)),
        Effect::Xpbyt => make!(r, o => put_byte(store, r, r.a, r.b, r.c)),
        Effect::Add => make!(r, o => set_a(r, add(r.b, r.a))),
        Effect::Sub => make!(r, o => set_a(r, sub(r.b, r.a))),
        Effect::Mul => make!(r, o => set_a(r, mul(r.b, r.a))),
        Effect::Div => make!(r, o => divide(div(r.b, r.a), r, place)),
        Effect::Rem => make!(r, o => divide(rem(r.b, r.a), r, place)),
        Effect::And => make!(r, o => set_a(r, r.b & r.a)),
        Effect::Or => make!(r, o => set_a(r, r.b | r.a)),
        Effect::Xor => make!(r, o => set_a(r, r.b ^ r.a)),
        Effect::Lsh => make!(r, o => set_a(r, shl(r.b, r.a))),
        Effect::Rsh => make!(r, o => set_a(r, shr(r.b, r.a))),
        Effect::Neg => make!(r, o => set_a(r, sub(0, r.a))),
        Effect::Not => make!(r, o => set_a(r, !r.a)),
        Effect::Xch => make!(r, o => keep(Regs { a: r.b, b: r.a, ..r })),
        Effect::Atb => make!(r, o => keep(Regs { b: r.a, ..r })),
        Effect::Atc => make!(r, o => keep(Regs { c: r.a % 256, ..r })),
        Effect::Btc => make!(r, o => keep(Regs { c: r.b % 256, ..r })),
        Effect::Jump => make!(r, o => jump(r, o.target)),
        Effect::JumpIf(Test::Eq) => make!(r, o => jump_if(holds(Test::Eq, r.b, r.a), r, o.target)),
        Effect::JumpIf(Test::Ne) => make!(r, o => jump_if(holds(Test::Ne, r.b, r.a), r, o.target)),
        Effect::JumpIf(Test::Ls) => make!(r, o => jump_if(holds(Test::Ls, r.b, r.a), r, o.target)),
        Effect::JumpIf(Test::Gr) => make!(r, o => jump_if(holds(Test::Gr, r.b, r.a), r, o.target)),
        Effect::JumpIf(Test::Le) => make!(r, o => jump_if(holds(Test::Le, r.b, r.a), r, o.target)),
        Effect::JumpIf(Test::Ge) => make!(r, o => jump_if(holds(Test::Ge, r.b, r.a), r, o.target)),
        Effect::JumpIfZero(Test::Eq) =>
            make!(r, o => jump_if(holds(Test::Eq, r.a, 0), r, o.target)),
        Effect::JumpIfZero(Test::Ne) =>
            make!(r, o => jump_if(holds(Test::Ne, r.a, 0), r, o.target)),
        Effect::JumpIfZero(Test::Ls) =>
            make!(r, o => jump_if(holds(Test::Ls, r.a, 0), r, o.target)),
        Effect::JumpIfZero(Test::Gr) =>
            make!(r, o => jump_if(holds(Test::Gr, r.a, 0), r, o.target)),
        Effect::JumpIfZero(Test::Le) =>
            make!(r, o => jump_if(holds(Test::Le, r.a, 0), r, o.target)),
        Effect::JumpIfZero(Test::Ge) =>
            make!(r, o => jump_if(holds(Test::Ge, r.a, 0), r, o.target)),
        Effect::Call => make!(r, o => enter(r, add(r.p, o.number), r.a, r.b, r.pc)),
        Effect::CallG(k) => make!(r, o => enter_global(store, r, add(r.g, o.number), k, r.pc)),
        Effect::Rtn => make!(r, o => leave(store, r)),
        Effect::Goto => make!(r, o => jump(r, r.a)),
        Effect::Fhop => make!(r, o => keep(Regs { a: 0, pc: add(r.pc, 1), ..r })),
        Effect::Swl => make!(r, o => switch_by_label(store, r, even_above(r.pc))),
        Effect::Swb => make!(r, o => switch_by_key(store, r, even_above(r.pc))),
        Effect::Nop => make!(r, o => keep(r)),
        Effect::Brk => with_operand!(_o => Outcome::Fault(Fault {
            code: 2,
            address: place,
        })),
        Effect::Sys => with_operand!(_o => Outcome::Sys),
    }
}

/// The registers with PC at the next instruction.
#[inline(always)]
pub fn next(regs: &Regs, length: u32) -> Regs
    ensures { result ≡ record regs.now { pc = add regs.now.pc length } }
{
    Regs {
        a: regs.a,
        b: regs.b,
        c: regs.c,
        p: regs.p,
        g: regs.g,
        pc: add(regs.pc, length),
    }
}
