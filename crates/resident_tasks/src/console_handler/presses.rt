// A key comes.
ghost use Rattle.std.specs.Prelude.{◌+◌, ◌≤◌, List, length, ℕ};
ghost use Rattle.kernel_calls.specs.CallAnswers.Outside.{outside};
ghost use Rattle.resident_tasks.specs.ConsoleHandler.ConsoleTurn.{with_key};
ghost use Rattle.resident_tasks.specs.ConsoleHandler.KeyPacket.{FindsKeys};
ghost use Rattle.resident_tasks.specs.ConsoleHandler.TurnParts.{ConsoleStart, ConsoleTurn, IsDone};

use crate::console_handler::keys::take_keys;
use crate::console_handler::lines::ConsoleState;
use byte_streams::Output;
use kernel_calls::set_flags;
use kernel_lists::EventLog;
use kernel_model::KindKeeper;
use word_store::Store;

/// Takes the key packet, does what its key says, and sets the flags of the task with the number, where it is there.
pub(crate) fn take_key<Q: KindKeeper, L: EventLog>(
    state: &mut ConsoleState,
    awaited: u32,
    store: &mut Store,
    kinds: &Q,
    bytes: &mut Output,
    log: &mut L,
)
    requires room { length bytes.old + 3 ≤ 8192 }
    requires first { (b : ConsoleStart) × (k : List ℕ) × (g : ConsoleTurn)
        × IsDone b store.old (Q.tells kinds.now) (Q.room kinds.now)
        (outside bytes.old (L.noted log.old) (L.has_failed log.old)) state.old k g
        × FindsKeys g.lists }
    ensures { (b : ConsoleStart) (k : List ℕ) (g : ConsoleTurn)
        → IsDone b store.old (Q.tells kinds.now) (Q.room kinds.now)
        (outside bytes.old (L.noted log.old) (L.has_failed log.old)) state.old k g
        → FindsKeys g.lists
        → IsDone b store.new (Q.tells kinds.now) (Q.room kinds.now)
        (outside bytes.new (L.noted log.new) (L.has_failed log.new)) state.new k
        (with_key awaited g) }
{
    let key = take_keys(store, log);
    let flags = state.press(key, bytes);
    let _unknown = set_flags(store, awaited, flags);
}
