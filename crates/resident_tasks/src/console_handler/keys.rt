// The console's key packet.
ghost use Rattle.std.specs.Prelude.{◌≡◌, ◌&&◌, List, Ok, is_some, not, true, ℕ};
ghost use Rattle.kernel_lists.specs.OwnedWords.Owned.{owners};
ghost use Rattle.kernel_model.specs.KernelRecord.HoldsLists.{HoldsLists};
ghost use Rattle.kernel_model.specs.KernelRecord.Lists.{Lists};
ghost use Rattle.kernel_model.specs.KernelRecord.Owned.{owned};
ghost use Rattle.kernel_calls.specs.CallAnswers.CallChange.{Leaves};
ghost use Rattle.kernel_calls.specs.CallAnswers.Outside.{outside};
ghost use Rattle.kernel_model.specs.KernelRecord.Kernel.{Console};
ghost use Rattle.resident_tasks.specs.ConsoleHandler.ConsoleTurn.{keys_sent, with_keys_sent};
ghost use Rattle.resident_tasks.specs.ConsoleHandler.KeyPacket.{FindsKeys, keys_taken};
ghost use Rattle.resident_tasks.specs.ConsoleHandler.TurnParts.{ConsoleStart, ConsoleTurn, IsDone};
ghost use Rattle.resident_tasks.specs.ResidentRequests.Requests.{RunsResident};
ghost use Rattle.kernel_model.specs.KernelRecord.LoggedEvents.{LogsAll};

use crate::console_handler::lines::ConsoleState;
use kernel_calls::{Queue, send_own, taken, unqueue};
use kernel_lists::{EventLog, NO_QUEUE, PACKET_LINK, RootField, TcbField, field, root};
use kernel_model::KindKeeper;
use kernel_model::numbers::{CONSOLE, KEY_PACKET, RES1, SENDER, SIGNED_KEYBOARD};
use word_store::{Store, word_at};

/// The resident that runs takes the key packet, which is its first, and answers the key, its first result. The packet is on no
/// queue then, with the link -1. Its words are the kernel's as before, so no keeper has to be told.
pub fn take_keys<L: EventLog>(store: &mut Store, log: &mut L) -> u32
    requires { (l : Lists) × HoldsLists store.old l × FindsKeys l }
    ensures taken { (l : Lists) → HoldsLists store.old l → FindsKeys l
        → Leaves store.old store.new (Ok result) (keys_taken l) }
    ensures notes { (l : Lists) → HoldsLists store.old l → FindsKeys l
        → LogsAll L.EventLog log.old log.new (keys_taken l).events }
    ensures same { (l : Lists) (a : ℕ) → HoldsLists store.old l → FindsKeys l
        → owners a (owned (keys_taken l).lists) ≡ owners a (owned l) }
    ensures runs { (l : Lists) → HoldsLists store.old l → FindsKeys l
        → RunsResident (keys_taken l).lists }
{
    let task = root(store, RootField::Running);
    let id = field(store, task, TcbField::Id);
    unqueue(store, Queue::Work(task), KEY_PACKET);
    log.note(taken(id, KEY_PACKET, word_at(store, KEY_PACKET, SENDER)));
    word_at(store, KEY_PACKET, RES1)
}

/// Sends the key packet, which is on no queue, to the keyboard.
pub(crate) fn send_keys<Q: KindKeeper, L: EventLog>(store: &mut Store, kinds: &mut Q, log: &mut L)
    requires { (b : ConsoleStart) × (shown : List ℕ) × (c : Console) × (k : List ℕ) × (g : ConsoleTurn)
        × IsDone b store.old (Q.tells kinds.old) (Q.room kinds.old)
        (outside shown (L.noted log.old) (L.has_failed log.old)) c k g × (is_some g.lists.key ≡ true) }
    ensures done { (b : ConsoleStart) (shown : List ℕ) (c : Console) (k : List ℕ) (g : ConsoleTurn)
        → IsDone b store.old (Q.tells kinds.old) (Q.room kinds.old)
        (outside shown (L.noted log.old) (L.has_failed log.old)) c k g → is_some g.lists.key ≡ true
        → IsDone b store.new (Q.tells kinds.new) (Q.room kinds.new)
        (outside shown (L.noted log.new) (L.has_failed log.new)) c k (keys_sent g) }
    ensures room { Q.room kinds.new ≡ Q.room kinds.old }
{
    send_own(store, kinds, KEY_PACKET, CONSOLE, SIGNED_KEYBOARD, log);
}

/// Sends the key packet to the keyboard, unless it is on a queue, or a finished line waits.
pub(crate) fn send_free_keys<Q: KindKeeper, L: EventLog>(
    state: &ConsoleState,
    store: &mut Store,
    kinds: &mut Q,
    log: &mut L,
)
    requires { (b : ConsoleStart) × (shown : List ℕ) × (k : List ℕ) × (g : ConsoleTurn)
        × IsDone b store.old (Q.tells kinds.old) (Q.room kinds.old)
        (outside shown (L.noted log.old) (L.has_failed log.old)) state.now k g }
    ensures done { (b : ConsoleStart) (shown : List ℕ) (k : List ℕ) (g : ConsoleTurn)
        → IsDone b store.old (Q.tells kinds.old) (Q.room kinds.old)
        (outside shown (L.noted log.old) (L.has_failed log.old)) state.now k g
        → IsDone b store.new (Q.tells kinds.new) (Q.room kinds.new)
        (outside shown (L.noted log.new) (L.has_failed log.new)) state.now k (with_keys_sent g) }
    ensures room { Q.room kinds.new ≡ Q.room kinds.old }
{
    if !are_keys_due(state, store) {
        return;
    }
    send_keys(store, kinds, log);
}

// Whether the key packet is on no queue, and no finished line waits.
fn are_keys_due(state: &ConsoleState, store: &Store) -> bool
    ensures { (l : Lists) → HoldsLists store.now l → l.residents ≡ true
        → result ≡ (is_some l.key && not state.now.finished) }
{
    if state.is_finished() {
        return false;
    }
    are_keys_free(store)
}

// Whether the key packet is on no queue.
fn are_keys_free(store: &Store) -> bool
    ensures { (l : Lists) → HoldsLists store.now l → l.residents ≡ true → result ≡ is_some l.key }
{
    word_at(store, KEY_PACKET, PACKET_LINK) == NO_QUEUE
}
