// A device returns a packet to the task that sent it.
ghost use Rattle.std.specs.Prelude.{◌≡◌};
ghost use Rattle.kernel_model.specs.KernelRecord.Changes.{queue_of};
ghost use Rattle.kernel_model.specs.KernelRecord.HoldsLists.{HoldsLists};
ghost use Rattle.kernel_model.specs.KernelRecord.Lists.{Lists};
ghost use Rattle.kernel_calls.specs.PacketCalls.Destinations.{queue_for};
ghost use Rattle.kernel_calls.specs.PacketCalls.Returned.{IsServed, first_returned, number_of, place_of};
ghost use Rattle.kernel_model.specs.KernelRecord.LoggedEvents.{LogsAll};

use crate::packet_calls::Queue;
use crate::packet_calls::events::{accepted, taken};
use crate::packet_calls::packets::give_back;
use crate::packet_calls::queues::{first, unqueue};
use kernel_lists::{EventLog, find};
use kernel_model::numbers::{CLOCK, KEYBOARD, OUTPUT, SENDER};
use word_store::{Store, word_at};

/// A device that has a queue.
#[derive(Clone, Copy)]
pub enum Device {
    /// The clock, -1.
    Clock,
    /// The keyboard, -2.
    Keyboard,
    /// The output device, -3.
    Output,
}

/// Takes the first packet from the queue of the device, where there is one, and puts it at the end of the work queue of the
/// task that sent it, from the device, with this first result, and 0 as the second.
pub fn return_first<L: EventLog>(store: &mut Store, device: Device, res1: u32, log: &mut L)
    requires { (l : Lists) × HoldsLists store.old l }
    ensures lists { (l : Lists) → HoldsLists store.old l → IsServed store.old store.new l
        (first_returned device res1 (queue_of (place_of device) l) l) }
    ensures notes { (l : Lists) → HoldsLists store.old l → LogsAll L.EventLog log.old log.new
        (first_returned device res1 (queue_of (place_of device) l) l).events }
{
    let queue = queue(device);
    let p = first(store, queue);
    if p == 0 {
        return;
    }
    let sender = word_at(store, p, SENDER);
    let Some(task) = find(store, sender) else {
        return;
    };
    let from = number(device);
    unqueue(store, queue, p);
    give_back(store, Queue::Work(task), p, from, res1, 0);
    log.note(taken(from, p, sender));
    log.note(accepted(sender, p, from));
}

// The queue of the device.
fn queue(device: Device) -> Queue
    ensures { (l : Lists) → result ≡ queue_for l (place_of device) }
{
    match device {
        Device::Clock => Queue::Clock,
        Device::Keyboard => Queue::Keyboard,
        Device::Output => Queue::Output,
    }
}

// The number of the device, as a word.
fn number(device: Device) -> u32
    ensures { result ≡ number_of device }
{
    match device {
        Device::Clock => CLOCK,
        Device::Keyboard => KEYBOARD,
        Device::Output => OUTPUT,
    }
}
