// The switch from the current coroutine, or the root, to another one.
ghost use Rattle.std.specs.Prelude.{◌≡◌, slice_index, slice_set};
ghost use Rattle.kernel_lists.specs.Coroutines.CoroutineWords.{as_current, as_parent, current_parent, saved_p, saved_pc};
ghost use Rattle.kernel_lists.specs.Coroutines.Switch.{called, entered, replaced, switched, waited};

use crate::task_block::{TcbField, field, set_field};
use word_store::{Regs, Store, set_word_at, word, word_at};

/// Which word of a coroutine names its parent.
pub(crate) const PARENT: u32 = 1;

/// Which word of a coroutine has its PC while it is not current.
const SAVED_PC: u32 = 6;

// Goes on in c, or in the root where c is 0, with the result v, and saves P and PC of the current one.
fn switch(store: &mut Store, t: u32, regs: &mut Regs, c: u32, v: u32)
    ensures words { store.new ≡ switched store.old t regs.old.p regs.old.pc c }
    ensures regs { regs.new ≡ entered store.old t regs.old c v }
{
    let current = field(store, t, TcbField::CurrentCo);
    let next = saved_frame(store, t, c);
    save_frame(store, t, current, regs.p, regs.pc);
    set_field(store, t, TcbField::CurrentCo, c);
    regs.a = v;
    regs.b = 0;
    regs.p = next.p;
    regs.pc = next.pc;
}

// Goes on in c, whose parent the current one became.
pub(crate) fn enter(store: &mut Store, t: u32, regs: &mut Regs, c: u32, v: u32)
    ensures words { store.new ≡ called store.old t regs.old c }
    ensures regs { regs.new ≡ entered store.old t regs.old c v }
{
    let current = field(store, t, TcbField::CurrentCo);
    switch(store, t, regs, c, v);
    set_word_at(store, c, PARENT, as_parent(t, current));
}

// Goes on in the parent of the current one, which has none any more.
pub(crate) fn leave(store: &mut Store, t: u32, regs: &mut Regs, v: u32)
    ensures words { store.new ≡ waited store.old t regs.old.p regs.old.pc }
    ensures regs { regs.new ≡ entered store.old t regs.old (current_parent store.old t) v }
{
    let current = field(store, t, TcbField::CurrentCo);
    let parent = word_at(store, current, PARENT);
    switch(store, t, regs, as_current(t, parent), v);
    set_word_at(store, current, PARENT, 0);
}

// Goes on in c, which gets the parent of the current one, and that has none any more.
pub(crate) fn replace(store: &mut Store, t: u32, regs: &mut Regs, c: u32, v: u32)
    ensures words { store.new ≡ replaced store.old t regs.old c }
    ensures regs { regs.new ≡ entered store.old t regs.old c v }
{
    let current = field(store, t, TcbField::CurrentCo);
    let parent = word_at(store, current, PARENT);
    switch(store, t, regs, c, v);
    set_word_at(store, c, PARENT, parent);
    set_word_at(store, current, PARENT, 0);
}

// Where a coroutine, or the root, goes on: its frame and its next instruction.
#[derive(Clone, Copy)]
struct Frame {
    /// Its P.
    p: u32,
    /// Its PC.
    pc: u32,
}

// The P and the PC that are saved for a coroutine of the task at t, or for its root, which 0 names.
fn saved_frame(store: &Store, t: u32, c: u32) -> Frame
    ensures p { result.p ≡ slice_index store.now (saved_p t c) }
    ensures pc { result.pc ≡ slice_index store.now (saved_pc t c) }
{
    if c == 0 {
        Frame {
            p: field(store, t, TcbField::RootP),
            pc: field(store, t, TcbField::RootPc),
        }
    } else {
        Frame {
            p: word(store, c),
            pc: word_at(store, c, SAVED_PC),
        }
    }
}

// Saves these for it.
fn save_frame(store: &mut Store, t: u32, c: u32, p: u32, pc: u32)
    ensures { store.new ≡ slice_set (slice_set store.old (saved_p t c) p) (saved_pc t c) pc }
{
    if c == 0 {
        set_field(store, t, TcbField::RootP, p);
        set_field(store, t, TcbField::RootPc, pc);
    } else {
        store.set(c, p);
        set_word_at(store, c, SAVED_PC, pc);
    }
}

// The name of the current one as a parent.
fn as_parent(t: u32, c: u32) -> u32
    ensures { result ≡ as_parent t c }
{
    if c == 0 { t } else { c }
}

// The name of a parent as the current one.
fn as_current(t: u32, p: u32) -> u32
    ensures { result ≡ as_current t p }
{
    if p == t { 0 } else { p }
}
