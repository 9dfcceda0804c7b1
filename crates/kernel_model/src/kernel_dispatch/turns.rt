// Dispatch: the task that ran is suspended, and the first ready one goes on.
ghost use Rattle.std.specs.Prelude.{◌≡◌};
ghost use Rattle.kernel_model.specs.KernelRecord.Lists.{Lists};
ghost use Rattle.kernel_model.specs.KernelDispatch.Dispatch.{CanDispatch};
ghost use Rattle.kernel_model.specs.KernelDispatch.Private.DispatchWords.{goes_on_in};
ghost use Rattle.kernel_model.specs.KernelDispatch.Turn.{IsDispatched};
ghost use Rattle.kernel_model.specs.KernelRecord.ChangedStore.{HasKeeper};

use crate::kernel_dispatch::choice::choose;
use crate::kernel_dispatch::idleness::idle;
use crate::kernel_dispatch::resumption::resume;
use crate::word_kinds::KindKeeper;
use kernel_lists::{EventLog, RootField, TcbField, field, root};
use word_store::{Regs, Store};

/// The first ready task runs, and nobody where none is ready. Where it is the one that runs already, nothing changes.
pub fn switch<Q: KindKeeper, L: EventLog>(
    store: &mut Store,
    regs: &mut Regs,
    kinds: &mut Q,
    log: &mut L,
)
    requires { (l : Lists) × HasKeeper store.old (Q.tells kinds.old) (Q.room kinds.old) l
        × CanDispatch l regs.old }
    ensures dispatched { (l : Lists)
        → HasKeeper store.old (Q.tells kinds.old) (Q.room kinds.old) l → CanDispatch l regs.old
        → IsDispatched store.old store.new l regs.old regs.new (Q.tells kinds.new)
        (L.noted log.old) (L.noted log.new) (L.has_failed log.old) (L.has_failed log.new) }
    ensures room { Q.room kinds.new ≡ Q.room kinds.old }
{
    let next = choose(store);
    if goes_on(store, next) {
        return;
    }
    match next {
        Some(t) => resume(store, regs, kinds, t, log),
        None => idle(store, regs, log),
    }
}

// Whether the next task is the one that runs.
fn goes_on(store: &Store, next: Option<u32>) -> bool
    ensures { result ≡ goes_on_in store.now next }
{
    match next {
        Some(t) => root(store, RootField::Running) == t && field(store, t, TcbField::State) < 4,
        None => false,
    }
}
