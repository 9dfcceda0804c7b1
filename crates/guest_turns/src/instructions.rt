// A guest executes an instruction, which writes none of the kernel's words.
ghost use Rattle.std.specs.Prelude.{◌≡◌, ◌≢◌, ◌<◌};
ghost use Rattle.instruction_set.specs.Instruction.{instruction};
ghost use Rattle.instruction_set.specs.NextWrites.{next_writes};
ghost use Rattle.instruction_set.specs.Writes.{list_of};
ghost use Rattle.kernel_model.specs.KernelRecord.HoldsLists.{HoldsLists};
ghost use Rattle.kernel_model.specs.KernelRecord.Lists.{Lists};
ghost use Rattle.guest_turns.specs.Guarded.{is_owned};
ghost use Rattle.kernel_model.specs.KernelRecord.ChangedStore.{HasKeeper};

use instruction_set::{Outcome, Writes, execute, execute_alone, next_writes};
use kernel_model::KindKeeper;
use word_store::{Regs, Store};

/// Executes the instruction at PC. The words that the kernel's lists own stay as they are: an instruction that would write one
/// of them is fault 6, and writes nothing.
pub fn execute_guest<Q: KindKeeper>(store: &mut Store, regs: &mut Regs, kinds: &Q) -> Outcome
    requires byte { regs.old.c < 256 }
    requires keeper { (l : Lists) × HasKeeper store.old (Q.tells kinds.now) (Q.room kinds.now) l }
    ensures outcome { (l : Lists) → HasKeeper store.old (Q.tells kinds.now) (Q.room kinds.now) l
        → result ≡ (instruction (is_owned l) store.old regs.old).outcome }
    ensures words { (l : Lists) → HasKeeper store.old (Q.tells kinds.now) (Q.room kinds.now) l
        → store.new ≡ (instruction (is_owned l) store.old regs.old).words }
    ensures regs { (l : Lists) → HasKeeper store.old (Q.tells kinds.now) (Q.room kinds.now) l
        → regs.new ≡ (instruction (is_owned l) store.old regs.old).regs }
    ensures lists { (l : Lists) → HasKeeper store.old (Q.tells kinds.now) (Q.room kinds.now) l
        → HoldsLists store.new l }
    ensures byte { regs.new.c < 256 }
{
    execute_alone(store, regs, kinds)
}

/// `execute_guest` for a loop that executes many: an instruction becomes part of that loop. What is not executed leaves the store
/// and the registers.
#[inline(always)]
pub fn execute_next<Q: KindKeeper>(store: &mut Store, regs: &mut Regs, kinds: &Q) -> Outcome
    requires byte { regs.old.c < 256 }
    requires keeper { (l : Lists) × HasKeeper store.old (Q.tells kinds.now) (Q.room kinds.now) l }
    ensures outcome { (l : Lists) → HasKeeper store.old (Q.tells kinds.now) (Q.room kinds.now) l
        → result ≡ (instruction (is_owned l) store.old regs.old).outcome }
    ensures words { (l : Lists) → HasKeeper store.old (Q.tells kinds.now) (Q.room kinds.now) l
        → store.new ≡ (instruction (is_owned l) store.old regs.old).words }
    ensures regs { (l : Lists) → HasKeeper store.old (Q.tells kinds.now) (Q.room kinds.now) l
        → regs.new ≡ (instruction (is_owned l) store.old regs.old).regs }
    ensures lists { (l : Lists) → HasKeeper store.old (Q.tells kinds.now) (Q.room kinds.now) l
        → HoldsLists store.new l }
    ensures stays { result ≢ Outcome.Next → (store.new ≡ store.old) × (regs.new ≡ regs.old) }
    ensures byte { regs.new.c < 256 }
{
    execute(store, regs, kinds)
}

/// What the instruction at PC writes, told before it is executed: nothing where it is a call, or a fault, as a write into a word that
/// the kernel's lists own.
pub fn guest_writes<Q: KindKeeper>(store: &Store, regs: Regs, kinds: &Q) -> Writes
    requires byte { regs.c < 256 }
    requires keeper { (l : Lists) × HasKeeper store.now (Q.tells kinds.now) (Q.room kinds.now) l }
    ensures { (l : Lists) → HasKeeper store.now (Q.tells kinds.now) (Q.room kinds.now) l
        → list_of result ≡ next_writes (is_owned l) store.now regs }
{
    next_writes(store, regs, kinds)
}

/// Whether the word at the address is one that the kernel's lists own.
pub fn is_kernel_word<Q: KindKeeper>(store: &Store, a: u32, kinds: &Q) -> bool
    requires { (l : Lists) × HasKeeper store.now (Q.tells kinds.now) (Q.room kinds.now) l }
    ensures { (l : Lists) → HasKeeper store.now (Q.tells kinds.now) (Q.room kinds.now) l
        → result ≡ is_owned l a }
{
    kinds.is_kernel(store, a)
}
