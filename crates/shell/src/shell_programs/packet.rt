// The shell sends its packet.
ghost use Rattle.std.specs.Prelude.{◌≡◌};
ghost use Rattle.kernel_model.specs.KernelRecord.Lists.{Lists};
ghost use Rattle.kernel_lists.specs.OwnedWords.Owned.{written};
ghost use Rattle.kernel_model.specs.KernelRecord.StoreWithLists.{store_with_lists};
ghost use Rattle.shell.specs.ShellPrograms.ShellPacket.{CanPost, post_events, posted, request_words, requested};
ghost use Rattle.shell.specs.ShellPrograms.StoresWithLists.{RepresentsStoreWithLists};
ghost use Rattle.kernel_model.specs.KernelRecord.LoggedEvents.{LogsAll};
ghost use Rattle.kernel_model.specs.KernelRecord.ChangedStore.{HasKeeper};

use kernel_calls::send_own;
use kernel_lists::EventLog;
use kernel_model::KindKeeper;
use kernel_model::numbers::{FIRST, KIND, RES1, RES2, SECOND, SHELL, SHELL_PACKET, THIRD};
use word_store::{Store, set_word_at, signed};

/// Sends the shell's packet, which is on no queue, from the shell to the task with the number as a request of this type: its results
/// and its arguments are 0.
pub fn send_shell_packet<Q: KindKeeper, L: EventLog>(
    store: &mut Store,
    kinds: &mut Q,
    to: u32,
    kind: u32,
    log: &mut L,
)
    requires { (l : Lists) × HasKeeper store.old (Q.tells kinds.old) (Q.room kinds.old) l
        × CanPost l to }
    ensures sent { (l : Lists) → HasKeeper store.old (Q.tells kinds.old) (Q.room kinds.old) l
        → CanPost l to → RepresentsStoreWithLists store.new (Q.tells kinds.new) (Q.room kinds.new)
        (requested to kind (store_with_lists store.old l)) }
    ensures notes { (l : Lists) → HasKeeper store.old (Q.tells kinds.old) (Q.room kinds.old) l
        → CanPost l to → LogsAll L.EventLog log.old log.new (post_events to) }
    ensures room { Q.room kinds.new ≡ Q.room kinds.old }
{
    write_request(store, kind);
    post_shell_packet(store, kinds, to, log);
}

// Writes the shell's packet as a request of this type.
fn write_request(store: &mut Store, kind: u32)
    ensures { store.new ≡ written (request_words kind) store.old }
{
    set_word_at(store, SHELL_PACKET, THIRD, 0);
    set_word_at(store, SHELL_PACKET, SECOND, 0);
    set_word_at(store, SHELL_PACKET, FIRST, 0);
    set_word_at(store, SHELL_PACKET, RES2, 0);
    set_word_at(store, SHELL_PACKET, RES1, 0);
    set_word_at(store, SHELL_PACKET, KIND, kind);
}

/// Sends the shell's packet, which is on no queue, from the shell to the task with the number, with the type, the results and the
/// arguments that it has.
pub fn post_shell_packet<Q: KindKeeper, L: EventLog>(
    store: &mut Store,
    kinds: &mut Q,
    to: u32,
    log: &mut L,
)
    requires { (l : Lists) × HasKeeper store.old (Q.tells kinds.old) (Q.room kinds.old) l
        × CanPost l to }
    ensures sent { (l : Lists) → HasKeeper store.old (Q.tells kinds.old) (Q.room kinds.old) l
        → CanPost l to → RepresentsStoreWithLists store.new (Q.tells kinds.new) (Q.room kinds.new)
        (posted to (store_with_lists store.old l)) }
    ensures notes { (l : Lists) → HasKeeper store.old (Q.tells kinds.old) (Q.room kinds.old) l
        → CanPost l to → LogsAll L.EventLog log.old log.new (post_events to) }
    ensures room { Q.room kinds.new ≡ Q.room kinds.old }
{
    send_own(store, kinds, SHELL_PACKET, SHELL, signed(to), log);
}
