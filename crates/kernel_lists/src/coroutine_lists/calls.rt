// A coroutine is called, resumed or waits, and its function returns.
ghost use Rattle.std.specs.Prelude.{◌≡◌, ◌≢◌, ◌∷◌, drop, OnErr, OnOk};
ghost use Rattle.kernel_lists.specs.Coroutines.Active.{active_in};
ghost use Rattle.kernel_lists.specs.Coroutines.Coroutines.{HasCoroutines};
ghost use Rattle.kernel_lists.specs.Coroutines.CoroutineWords.{current_in, current_parent};
ghost use Rattle.kernel_lists.specs.Coroutines.Refusals.{idle_answer, resume_answer, wait_answer};
ghost use Rattle.kernel_lists.specs.Coroutines.Switch.{called, entered, resumed, resumed_regs, returned, waited};
ghost use Rattle.kernel_lists.specs.TaskBlock.Lists.{coroutines_in};

use crate::coroutine_lists::ends::CoEnd;
use crate::coroutine_lists::members::{check_idle, has_parent, is_known};
use crate::coroutine_lists::switch::{enter, leave, replace};
use crate::task_block::{TcbField, field};
use word_store::{Regs, Store, word_at};

/// Which word of a coroutine has the address of its function.
const FUNCTION: u32 = 3;

/// The frame at the bottom of a coroutine's stack, in words from its address.
pub(crate) const BOTTOM: u32 = 7;

/// Calls the coroutine c of the task at t with v: the current one becomes its parent, and c goes on.
pub fn call(store: &mut Store, t: u32, regs: &mut Regs, c: u32, v: u32) -> Result<(), CoEnd>
    requires { HasCoroutines store.old t }
    ensures answer { result ≡ idle_answer store.old t c }
    ensures words { OnOk result (store.new ≡ called store.old t regs.old c) }
    ensures regs { OnOk result (regs.new ≡ entered store.old t regs.old c v) }
    ensures active { OnOk result (active_in store.new t ≡ c ∷ active_in store.old t) }
    ensures coroutines { coroutines_in store.new t ≡ coroutines_in store.old t }
    ensures valid { HasCoroutines store.new t }
    ensures unchanged { OnErr result ((store.new ≡ store.old) × (regs.new ≡ regs.old)) }
{
    check_idle(store, t, c)?;
    enter(store, t, regs, c, v);
    Ok(())
}

/// Resumes the coroutine c of the task at t with v: it takes the current one's place, whose parent becomes its own. Where it
/// is the current one, only A becomes v, and B 0.
pub fn resume(store: &mut Store, t: u32, regs: &mut Regs, c: u32, v: u32) -> Result<(), CoEnd>
    requires { HasCoroutines store.old t }
    ensures answer { result ≡ resume_answer store.old t c }
    ensures words { OnOk result (store.new ≡ resumed store.old t regs.old c) }
    ensures regs { OnOk result (regs.new ≡ resumed_regs store.old t regs.old c v) }
    ensures active { OnOk result (active_in store.new t ≡ c ∷ drop 1 (active_in store.old t)) }
    ensures coroutines { coroutines_in store.new t ≡ coroutines_in store.old t }
    ensures valid { HasCoroutines store.new t }
    ensures unchanged { OnErr result ((store.new ≡ store.old) × (regs.new ≡ regs.old)) }
{
    if !is_known(store, t, c) {
        return Err(CoEnd::Unknown);
    }
    let current = field(store, t, TcbField::CurrentCo);
    if current == 0 {
        return Err(CoEnd::NoParent);
    }
    if current == c {
        regs.a = v;
        regs.b = 0;
        return Ok(());
    }
    if has_parent(store, t, c) {
        return Err(CoEnd::HasParent);
    }
    replace(store, t, regs, c, v);
    Ok(())
}

/// Makes the current coroutine of the task at t wait: it has no parent any more, and its parent goes on with v.
pub fn wait(store: &mut Store, t: u32, regs: &mut Regs, v: u32) -> Result<(), CoEnd>
    requires { HasCoroutines store.old t }
    ensures answer { result ≡ wait_answer store.old t }
    ensures words { OnOk result (store.new ≡ waited store.old t regs.old.p regs.old.pc) }
    ensures regs { OnOk result
        (regs.new ≡ entered store.old t regs.old (current_parent store.old t) v) }
    ensures active { OnOk result (active_in store.new t ≡ drop 1 (active_in store.old t)) }
    ensures coroutines { coroutines_in store.new t ≡ coroutines_in store.old t }
    ensures valid { HasCoroutines store.new t }
    ensures unchanged { OnErr result ((store.new ≡ store.old) × (regs.new ≡ regs.old)) }
{
    if field(store, t, TcbField::CurrentCo) == 0 {
        return Err(CoEnd::NoParent);
    }
    leave(store, t, regs, v);
    Ok(())
}

/// Ends the function of the current coroutine of the task at t, which is not the root: its parent goes on with what A holds,
/// and the coroutine will start again at its function, with P at its bottom frame.
pub fn ended(store: &mut Store, t: u32, regs: &mut Regs)
    requires coroutines { HasCoroutines store.old t }
    requires within { current_in store.old t ≢ 0 }
    ensures words { store.new ≡ returned store.old t }
    ensures regs { regs.new ≡ entered store.old t regs.old (current_parent store.old t) regs.old.a }
    ensures active { active_in store.new t ≡ drop 1 (active_in store.old t) }
    ensures coroutines { coroutines_in store.new t ≡ coroutines_in store.old t }
    ensures valid { HasCoroutines store.new t }
{
    let current = field(store, t, TcbField::CurrentCo);
    regs.p = store.address_of(current, BOTTOM);
    regs.pc = word_at(store, current, FUNCTION);
    let result = regs.a;
    leave(store, t, regs, result);
}
