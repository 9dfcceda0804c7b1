// The registers that a task goes on with.
ghost use Rattle.std.specs.Prelude.{◌≡◌};
ghost use Rattle.kernel_model.specs.KernelRecord.ValidTasks.{no_regs};
ghost use Rattle.kernel_model.specs.KernelDispatch.Private.DispatchWords.{entry_in, guest_regs_in, next_regs_in, saved_in};

use crate::kernel_record::numbers::{DEAD, INTERRUPTED};
use kernel_lists::{FIRST_GUEST, RootField, TcbField, field, root};
use word_store::{Regs, Store, word_at};

/// Those of the task at t, which has taken the packet. `regs` are the live ones, which it has where it is the one that runs.
pub(crate) fn next_regs(store: &Store, regs: &Regs, t: u32, packet: u32) -> Regs
    ensures { result ≡ next_regs_in store.now regs.now t packet }
{
    if field(store, t, TcbField::Id) >= FIRST_GUEST {
        guest_regs(store, regs, t, packet)
    } else {
        no_regs()
    }
}

/// Those of nobody, and of a resident.
pub(crate) fn no_regs() -> Regs
    ensures { result ≡ no_regs }
{
    Regs {
        a: 0,
        b: 0,
        c: 0,
        p: 0,
        g: 0,
        pc: 0,
    }
}

fn guest_regs(store: &Store, regs: &Regs, t: u32, packet: u32) -> Regs
    ensures { result ≡ guest_regs_in store.now regs.now t packet }
{
    let state = field(store, t, TcbField::State);
    if state >= DEAD {
        return entry_regs(store, t, packet);
    }
    let saved = saved_regs(store, regs, t);
    if state >= INTERRUPTED {
        return saved;
    }
    Regs {
        a: packet,
        b: 0,
        ..saved
    }
}

// A dead task begins at its entry, with its packet.
fn entry_regs(store: &Store, t: u32, packet: u32) -> Regs
    ensures { result ≡ entry_in store.now t packet }
{
    let globals = field(store, t, TcbField::Globals);
    Regs {
        a: packet,
        b: 0,
        c: 0,
        p: field(store, t, TcbField::Stack),
        g: globals,
        pc: word_at(store, globals, 1),
    }
}

fn saved_regs(store: &Store, regs: &Regs, t: u32) -> Regs
    ensures { result ≡ saved_in store.now regs.now t }
{
    if root(store, RootField::Running) == t {
        return *regs;
    }
    Regs {
        a: field(store, t, TcbField::SavedA),
        b: field(store, t, TcbField::SavedB),
        c: field(store, t, TcbField::SavedC),
        p: field(store, t, TcbField::SavedP),
        g: field(store, t, TcbField::SavedG),
        pc: field(store, t, TcbField::SavedPc),
    }
}
