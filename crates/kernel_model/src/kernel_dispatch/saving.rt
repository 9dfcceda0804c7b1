// What is written into the block of a task that stops running, and of one that goes on.
ghost use Rattle.std.specs.Prelude.{◌≡◌, ◌+◌, ◌<◌, IfSome, length, slice_get};
ghost use Rattle.kernel_lists.specs.PacketQueue.Queue.{HasQueue, queue_at};
ghost use Rattle.kernel_model.specs.KernelRecord.Task.{queue_head};
ghost use Rattle.kernel_model.specs.KernelDispatch.Private.DispatchWords.{suspended_state, taken_state, with_running_saved, with_saved, with_started, with_taken};

use kernel_lists::{RootField, TcbField, field, root, set_field, set_root, take};
use word_store::{Regs, Store};

/// Saves the registers of the running task, if one runs, which then runs no more.
pub(crate) fn suspend(store: &mut Store, regs: &Regs)
    ensures { store.new ≡ with_running_saved store.old regs.now }
{
    let t = root(store, RootField::Running);
    if t != 0 {
        save(store, t, regs);
    }
}

fn save(store: &mut Store, t: u32, regs: &Regs)
    ensures { store.new ≡ with_saved store.old t regs.now }
{
    let state = suspended_state(field(store, t, TcbField::State));
    set_field(store, t, TcbField::SavedA, regs.a);
    set_field(store, t, TcbField::SavedB, regs.b);
    set_field(store, t, TcbField::SavedC, regs.c);
    set_field(store, t, TcbField::SavedP, regs.p);
    set_field(store, t, TcbField::SavedG, regs.g);
    set_field(store, t, TcbField::SavedPc, regs.pc);
    set_field(store, t, TcbField::State, state);
}

// A field of 0 becomes 8, and every other one stays.
fn suspended_state(state: u32) -> u32
    ensures { result ≡ suspended_state state }
{
    if state < 4 { state + 8 } else { state }
}

/// Takes the first packet of the task at t, whose state then says whether more of them wait.
pub(crate) fn take_work(store: &mut Store, t: u32) -> Option<u32>
    requires queue { HasQueue store.old (queue_head t) }
    requires inside { queue_head t < length store.old }
    ensures first { result ≡ slice_get (queue_at store.old (queue_head t)) 0 }
    ensures words { IfSome result (λ p. store.new ≡ with_taken store.old t p) }
{
    let state = field(store, t, TcbField::State);
    let head = store.address_of(t, TcbField::Queue.index());
    let p = take(store, head)?;
    let next = field(store, t, TcbField::Queue);
    set_field(store, t, TcbField::State, taken_state(state, next));
    Some(p)
}

// A state is odd where packets wait.
fn taken_state(state: u32, next: u32) -> u32
    ensures { result ≡ taken_state state next }
{
    if next == 0 { state - state % 2 } else { state }
}

/// The task at t runs.
pub(crate) fn start(store: &mut Store, t: u32)
    ensures { store.new ≡ with_started store.old t }
{
    let state = field(store, t, TcbField::State);
    set_field(store, t, TcbField::State, state % 4);
    set_root(store, RootField::Running, t);
}
