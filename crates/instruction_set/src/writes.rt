// The writes of an instruction: all are made, or none.
ghost use Rattle.std.specs.Prelude.{◌≡◌, [], ◌∷◌};
ghost use Rattle.instruction_set.specs.Instruction.{after, made, settled, write_fault, written};
ghost use Rattle.instruction_set.specs.Writes.{change_seen, list_of, seen};

use crate::changes::Change;
use crate::{Fault, Outcome};
use word_store::{Guard, Regs, Store, add};

/// The words that an instruction writes.
#[derive(Clone, Copy)]
pub enum Writes {
    Nothing,
    /// One word at an address.
    Word {
        /// Its address.
        at: u32,
        /// The word.
        word: u32,
    },
    /// The four words of a stack frame, from an address on.
    Frame {
        /// The address of the first, in words.
        at: u32,
        /// The caller's P, as it is saved.
        caller: u32,
        /// Where the caller goes on, as a byte address.
        next: u32,
        /// The byte address of the function.
        function: u32,
        /// Its first argument.
        argument: u32,
    },
}

/// Makes a change, or names its fault.
#[inline(always)]
pub fn settle<X: Guard>(
    change: Result<Change, Fault>,
    store: &mut Store,
    regs: &mut Regs,
    guard: &X,
) -> Outcome
    requires { X.can_guard guard.now store.old }
    ensures { after result store.new regs.new
        ≡ settled (X.marks guard.now store.old) store.old regs.old (seen change) }
{
    match change {
        Ok(change) => make(store, regs, guard, change),
        Err(fault) => Outcome::Fault(fault),
    }
}

// Makes all the writes and sets the registers, or names the first write that can't be made. The registers are set one by
// one, before the store is written, so that they need not be kept meanwhile.
#[inline(always)]
fn make<X: Guard>(store: &mut Store, regs: &mut Regs, guard: &X, change: Change) -> Outcome
    requires { X.can_guard guard.now store.old }
    ensures { let marks = X.marks guard.now store.old in
        let fault = write_fault marks store.old (list_of change.writes) in
        after result store.new regs.new ≡ made fault store.old regs.old (change_seen change) }
{
    if let Some(fault) = first_fault(store, guard, change.writes) {
        return Outcome::Fault(fault);
    }
    regs.a = change.regs.a;
    regs.b = change.regs.b;
    regs.c = change.regs.c;
    regs.p = change.regs.p;
    regs.g = change.regs.g;
    regs.pc = change.regs.pc;
    write_all(store, change.writes);
    Outcome::Next
}

/// The first of the writes, in their order, that is outside the store or into a kernel word.
#[inline(always)]
pub fn first_fault<X: Guard>(store: &Store, guard: &X, writes: Writes) -> Option<Fault>
    requires { X.can_guard guard.now store.now }
    ensures { result ≡ write_fault (X.marks guard.now store.now) store.now (list_of writes) }
{
    match writes {
        Writes::Nothing => None,
        Writes::Word { at, .. } => fault_at(store, guard, at),
        Writes::Frame { at, .. } => fault_at(store, guard, at)
            .or(fault_at(store, guard, add(at, 1)))
            .or(fault_at(store, guard, add(at, 2)))
            .or(fault_at(store, guard, add(at, 3))),
    }
}

#[inline(always)]
fn fault_at<X: Guard>(store: &Store, guard: &X, a: u32) -> Option<Fault>
    requires { X.can_guard guard.now store.now }
    ensures { result ≡ write_fault (X.marks guard.now store.now) store.now ((a, 0) ∷ []) }
{
    if a >= store.size() {
        return Some(Fault {
            code: 4,
            address: a,
        });
    }
    if guard.is_kernel(store, a) {
        return Some(Fault {
            code: 6,
            address: a,
        });
    }
    None
}

/// Makes the writes, in their order.
#[inline(always)]
pub fn write_all(store: &mut Store, writes: Writes)
    ensures { store.new ≡ written store.old (list_of writes) }
{
    match writes {
        Writes::Nothing => {}
        Writes::Word { at, word } => {
            store.set(at, word);
        }
        Writes::Frame {
            at,
            caller,
            next,
            function,
            argument,
        } => {
            store.set(at, caller);
            store.set(add(at, 1), next);
            store.set(add(at, 2), function);
            store.set(add(at, 3), argument);
        }
    }
}
