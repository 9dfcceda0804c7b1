// A tick of the clock.
ghost use Rattle.std.specs.Prelude.{◌≡◌, ◌<◌, ◌-◌, ◌^◌};
ghost use Rattle.kernel_model.specs.KernelRecord.HoldsLists.{HoldsLists};
ghost use Rattle.kernel_model.specs.KernelRecord.Lists.{Lists};
ghost use Rattle.kernel_calls.specs.PacketCalls.Returned.{IsServed};
ghost use Rattle.kernel_devices.specs.Tick.{due_returned, is_first_due, ticked};
ghost use Rattle.kernel_model.specs.KernelRecord.LoggedEvents.{LogsAll};

use kernel_calls::{Device, return_first};
use kernel_lists::{DUE, EventLog, RootField, root, set_root};
use word_store::{Store, word_at};

/// The ticks are one more, and every packet at the clock that is due by then is returned to its sender, in the order of the
/// queue, with results of 0.
pub fn tick<L: EventLog>(store: &mut Store, log: &mut L)
    requires { (l : Lists) × HoldsLists store.old l × (l.tick < 2 ^ 32 - 1) }
    ensures lists { (l : Lists) → HoldsLists store.old l → l.tick < 2 ^ 32 - 1
        → IsServed store.old store.new l (ticked l) }
    ensures notes { (l : Lists) → HoldsLists store.old l → l.tick < 2 ^ 32 - 1
        → LogsAll L.EventLog log.old log.new (ticked l).events }
{
    let now = root(store, RootField::Tick) + 1;
    set_root(store, RootField::Tick, now);
    return_due(store, now, log);
}

// Every packet that is due at this tick or before is returned.
fn return_due<L: EventLog>(store: &mut Store, now: u32, log: &mut L)
    requires { (l : Lists) × HoldsLists store.old l }
    ensures lists { (l : Lists) → HoldsLists store.old l
        → IsServed store.old store.new l (due_returned now l) }
    ensures notes { (l : Lists) → HoldsLists store.old l
        → LogsAll L.EventLog log.old log.new (due_returned now l).events }
{
    while is_first_due(store, now) {
        return_first(store, Device::Clock, 0, log);
    }
}

// Whether there is a packet at the clock, of which the first is due.
fn is_first_due(store: &Store, now: u32) -> bool
    ensures { (l : Lists) → HoldsLists store.now l → result ≡ is_first_due now l.clock }
{
    let p = root(store, RootField::ClockQueue);
    if p == 0 {
        return false;
    }
    word_at(store, p, DUE) <= now
}
