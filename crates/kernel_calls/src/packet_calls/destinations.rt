// Which queue a number names.
ghost use Rattle.std.specs.Prelude.{◌≡◌};
ghost use Rattle.word_store.specs.Arithmetic.{word_of};
ghost use Rattle.kernel_model.specs.KernelRecord.HoldsLists.{HoldsLists};
ghost use Rattle.kernel_model.specs.KernelRecord.Lists.{Lists};
ghost use Rattle.kernel_calls.specs.PacketCalls.Destinations.{destination_of};

use crate::packet_calls::queues::Queue;
use kernel_lists::find;
use kernel_model::numbers::{CLOCK, KEYBOARD, OUTPUT};
use word_store::Store;

/// The number of a task or a device as a word.
pub fn number_word(number: i32) -> u32
    ensures { result ≡ word_of number }
{
    number.cast_unsigned()
}

/// The queue of the device or the task with the number.
pub fn destination(store: &Store, number: u32) -> Option<Queue>
    requires { (l : Lists) × HoldsLists store.now l }
    ensures { (l : Lists) → HoldsLists store.now l → result ≡ destination_of l number }
{
    if number == CLOCK {
        return Some(Queue::Clock);
    }
    if number == KEYBOARD {
        return Some(Queue::Keyboard);
    }
    if number == OUTPUT {
        return Some(Queue::Output);
    }
    let task = find(store, number)?;
    Some(Queue::Work(task))
}
