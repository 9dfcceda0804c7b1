// Nobody runs.
ghost use Rattle.std.specs.Prelude.{◌≡◌};
ghost use Rattle.kernel_model.specs.KernelRecord.ValidTasks.{no_regs};
ghost use Rattle.kernel_model.specs.KernelDispatch.Private.DispatchWords.{idle_events, with_nobody_running};
ghost use Rattle.kernel_model.specs.KernelRecord.LoggedEvents.{LogsAll};

use crate::kernel_dispatch::registers::no_regs;
use crate::kernel_dispatch::saving::suspend;
use kernel_lists::{EventLog, KernelEvent, RootField, root, set_root};
use word_store::{Regs, Store};

/// The task that ran is suspended, and nobody runs.
pub(crate) fn idle<L: EventLog>(store: &mut Store, regs: &mut Regs, log: &mut L)
    ensures words { store.new ≡ with_nobody_running store.old regs.old }
    ensures regs { regs.new ≡ no_regs }
    ensures events { LogsAll L.EventLog log.old log.new (idle_events store.old) }
{
    let ran = root(store, RootField::Running);
    suspend(store, regs);
    set_root(store, RootField::Running, 0);
    *regs = no_regs();
    if ran == 0 {
        return;
    }
    log.note(KernelEvent::Runs { task: 0 });
}
