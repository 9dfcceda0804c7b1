// Whether the console's line is as it must be, between steps.
ghost use Rattle.std.specs.Prelude.{◌≡◌, ◌↔◌, [], IsTrue, is_some, true};
ghost use Rattle.kernel_model.specs.KernelRecord.Between.{IsValidConsole};
ghost use Rattle.kernel_model.specs.KernelRecord.HoldsLists.{HoldsLists};
ghost use Rattle.kernel_model.specs.KernelRecord.Kernel.{no_line};
ghost use Rattle.kernel_model.specs.KernelRecord.Recovered.{lists_in};
ghost use Rattle.kernel_check.specs.ConsoleLine.{console_of};

use crate::list_passes::has_residents;
use kernel_lists::NO_QUEUE;
use kernel_model::numbers::{KEY_PACKET, MOST_LINE, PENDING_HEAD};
use word_store::{Store, word};

/// Whether the line, which is finished or not, may be the console's. It looks at two words.
pub fn is_valid_console(store: &Store, line: &[u8], finished: bool) -> bool
    requires { HoldsLists store.now (lists_in store.now) }
    ensures { IsTrue result ↔ IsValidConsole (lists_in store.now) (console_of line.now finished) }
{
    if line.len() > MOST_LINE {
        return false;
    }
    if !has_residents(store) {
        return is_absent(line, finished);
    }
    if !key_tells(store, finished) {
        return false;
    }
    is_delivered(store, finished)
}

// Whether nothing was typed.
fn is_absent(line: &[u8], finished: bool) -> bool
    ensures { IsTrue result ↔ (console_of line.now finished ≡ no_line) }
{
    if finished {
        return false;
    }
    line.is_empty()
}

// Whether the line is finished exactly where the key packet is on no queue.
fn key_tells(store: &Store, finished: bool) -> bool
    requires { (lists_in store.now).residents ≡ true }
    ensures { IsTrue result ↔ (finished ≡ is_some (lists_in store.now).key) }
{
    if word(store, KEY_PACKET) == NO_QUEUE {
        return finished;
    }
    !finished
}

// Whether no read waits for a line, where it is finished.
fn is_delivered(store: &Store, finished: bool) -> bool
    requires there { (lists_in store.now).residents ≡ true }
    requires lists { HoldsLists store.now (lists_in store.now) }
    ensures { IsTrue result ↔ (finished ≡ true → (lists_in store.now).pending ≡ []) }
{
    if !finished {
        return true;
    }
    word(store, PENDING_HEAD) == 0
}
