// A task that is to begin.
ghost use Rattle.std.specs.Prelude.{◌≡◌, ◌%◌, ◌+◌, []};
ghost use Rattle.kernel_lists.specs.OwnedWords.Owned.{written};
ghost use Rattle.kernel_model.specs.KernelRecord.ChangedStore.{IsChanged};
ghost use Rattle.kernel_model.specs.KernelRecord.HoldsLists.{HoldsLists};
ghost use Rattle.kernel_model.specs.KernelRecord.Lists.{Lists};
ghost use Rattle.kernel_model.specs.KernelRecord.ValidQueues.{HasGuest};
ghost use Rattle.kernel_model.specs.KernelDispatch.Private.DispatchWords.{saved_words};
ghost use Rattle.kernel_boot.specs.BegunTask.{with_begun};

use kernel_calls::guest;
use kernel_lists::{TcbField, field, set_field};
use kernel_model::numbers::INTERRUPTED;
use word_store::{Regs, Store, word_at};

/// Lets the guest with the number begin at its function, with A, B and C 0, once it is its turn: as if it had been interrupted
/// before its first instruction.
pub fn begin_task(store: &mut Store, id: u32)
    requires { (l : Lists) × HoldsLists store.old l × HasGuest l id }
    ensures { (l : Lists) → HoldsLists store.old l → HasGuest l id
        → IsChanged store.old store.new (with_begun store.old id l) [] }
{
    let task = guest(store, id).unwrap();
    let globals = field(store, task, TcbField::Globals);
    let regs = Regs {
        a: 0,
        b: 0,
        c: 0,
        p: field(store, task, TcbField::Stack),
        g: globals,
        pc: word_at(store, globals, 1),
    };
    let state = field(store, task, TcbField::State) % 4 + INTERRUPTED;
    save(store, task, state, regs);
}

// Writes the state and the registers into the task block.
fn save(store: &mut Store, task: u32, state: u32, regs: Regs)
    ensures { store.new ≡ written (saved_words task state regs) store.old }
{
    set_field(store, task, TcbField::SavedA, regs.a);
    set_field(store, task, TcbField::SavedB, regs.b);
    set_field(store, task, TcbField::SavedC, regs.c);
    set_field(store, task, TcbField::SavedP, regs.p);
    set_field(store, task, TcbField::SavedG, regs.g);
    set_field(store, task, TcbField::SavedPc, regs.pc);
    set_field(store, task, TcbField::State, state);
}
