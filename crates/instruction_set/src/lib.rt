// The instructions: the table of the 256 codes, the forms of operands, and here what one instruction does.
#![tactic(auto)]

ghost use Rattle.std.specs.Prelude.{◌≡◌, ◌≢◌, ◌<◌};
ghost use Rattle.instruction_set.specs.Instruction.{instruction};

pub mod breakpoints;
mod bytes;
mod changes;
mod decode_faults;
mod effects;
mod frames;
pub mod instruction_table;
mod jumps;
pub mod laws;
mod lent;
pub mod operand_forms;
pub mod places;
mod switches;
mod unguarded;
pub mod writes;
pub mod written_words;

pub use breakpoints::has_breakpoint;
use decode_faults::undecoded;
use effects::row_effect;
pub use instruction_table::{Form, Row, byte_of, row};
use lent::Lent;
use operand_forms::fetch::byte_at;
pub use operand_forms::{Code, Instr, decode};
pub use places::{Places, written_places};
pub use unguarded::NoKernel;
use word_store::{Guard, Regs, Store};
pub use writes::Writes;
pub use written_words::next_writes;

/// Why an instruction was not executed, and where: a word address for codes 3, 4 and 6, else a byte address.
///
/// 1 a byte without a row, 2 BRK, 3 a read outside the store, 4 a write outside it, 5 a division by zero, 6 a write into a
/// kernel word, 7 an unknown call, 8 a function or operand byte outside the store. An instruction has no fault 7 itself.
#[derive(Clone, Copy)]
pub struct Fault {
    /// What is wrong.
    pub code: u32,
    /// Where: the address of a word, or of the instruction's byte.
    pub address: u32,
}

/// How an instruction ended.
#[derive(Clone, Copy)]
pub enum Outcome {
    /// It was executed.
    Next,
    /// It is SYS, a kernel call, which is left to the kernel.
    Sys,
    /// PC is 0: the function at the bottom of the stack has returned.
    Returned,
    /// It was not executed.
    Fault(Fault),
}

/// Executes the instruction at PC. At `Sys`, `Returned` and `Fault` the registers and the store are as before. It becomes part of
/// its caller, and is for a loop that executes many: where two callers have the same kind of guard, they share most of it.
#[inline(always)]
#[tactic(auto, using(crate::proofs::RowsDecoded::byte_decided))]
pub fn execute<X: Guard>(store: &mut Store, regs: &mut Regs, guard: &X) -> Outcome
    requires byte { regs.old.c < 256 }
    requires guard { X.can_guard guard.now store.old }
    ensures outcome { let marks = X.marks guard.now store.old in
        result ≡ (instruction marks store.old regs.old).outcome }
    ensures words { let marks = X.marks guard.now store.old in
        store.new ≡ (instruction marks store.old regs.old).words }
    ensures regs { let marks = X.marks guard.now store.old in
        regs.new ≡ (instruction marks store.old regs.old).regs }
    ensures stays { result ≢ Outcome.Next → (store.new ≡ store.old) × (regs.new ≡ regs.old) }
    ensures byte { regs.new.c < 256 }
{
    if regs.pc == 0 {
        return Outcome::Returned;
    }
    match byte_at(&*store, regs.pc) {
        Ok(byte) => row_effect(store, regs, guard, byte),
        Err(end) => undecoded(end),
    }
}

/// The same, for a caller that executes one instruction alone. It is a function of its own, so that `execute` stays part of a loop
/// with the same kind of guard.
#[inline(never)]
pub fn execute_alone<X: Guard>(store: &mut Store, regs: &mut Regs, guard: &X) -> Outcome
    requires byte { regs.old.c < 256 }
    requires guard { X.can_guard guard.now store.old }
    ensures outcome { let marks = X.marks guard.now store.old in
        result ≡ (instruction marks store.old regs.old).outcome }
    ensures words { let marks = X.marks guard.now store.old in
        store.new ≡ (instruction marks store.old regs.old).words }
    ensures regs { let marks = X.marks guard.now store.old in
        regs.new ≡ (instruction marks store.old regs.old).regs }
    ensures stays { result ≢ Outcome.Next → (store.new ≡ store.old) × (regs.new ≡ regs.old) }
    ensures byte { regs.new.c < 256 }
{
    execute(store, regs, &Lent { guard })
}
