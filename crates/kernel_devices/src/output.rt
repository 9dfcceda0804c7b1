// The output device.
ghost use Rattle.std.specs.Prelude.{◌≡◌, ◌<◌, ◌++◌, length};
ghost use Rattle.kernel_model.specs.KernelRecord.HoldsLists.{HoldsLists};
ghost use Rattle.kernel_model.specs.KernelRecord.Lists.{Lists};
ghost use Rattle.kernel_devices.specs.Printed.{finished, printed};
ghost use Rattle.kernel_calls.specs.PacketCalls.Returned.{IsServed};
ghost use Rattle.kernel_model.specs.KernelRecord.LoggedEvents.{LogsAll};

use byte_streams::Output;
use kernel_calls::{Device, return_first};
use kernel_lists::{EventLog, RootField, root};
use kernel_model::numbers::FIRST;
use word_store::{Store, word_at};

/// The word of a packet that has the byte to be printed.
const BYTE: u32 = FIRST;

/// Serves the first packet that waits for the output device, where one does: the lowest byte of its word 5 goes to the output,
/// and the packet is returned from -3 with the results 0 and 0.
pub fn finish_output<L: EventLog>(store: &mut Store, bytes: &mut Output, log: &mut L)
    requires lists { (l : Lists) × HoldsLists store.old l }
    requires room { length bytes.old < 8192 }
    ensures lists { (l : Lists) → HoldsLists store.old l
        → IsServed store.old store.new l (finished l) }
    ensures bytes { (l : Lists) → HoldsLists store.old l
        → bytes.new ≡ bytes.old ++ printed store.old l.output }
    ensures notes { (l : Lists) → HoldsLists store.old l
        → LogsAll L.EventLog log.old log.new (finished l).events }
{
    let p = root(store, RootField::OutputQueue);
    if p == 0 {
        return;
    }
    bytes.append(&[(word_at(store, p, BYTE) % 256) as u8]);
    return_first(store, Device::Output, 0, log);
}
