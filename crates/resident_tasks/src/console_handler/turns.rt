// The turn of the console.
ghost use Rattle.std.specs.Prelude.{◌≡◌, [], List, ℕ};
ghost use Rattle.kernel_calls.specs.CallAnswers.Outside.{outside};
ghost use Rattle.kernel_model.specs.KernelRecord.Lists.{Lists};
ghost use Rattle.resident_tasks.specs.ConsoleHandler.ConsoleTurn.{RunsConsole, all_parts, console_turn, treated};
ghost use Rattle.resident_tasks.specs.ConsoleHandler.TurnParts.{ConsoleStart, ConsoleTurn, IsDone, begun};
ghost use Rattle.resident_tasks.specs.ResidentRequests.Requests.{work};
ghost use Rattle.resident_tasks.specs.ResidentRequests.Turns.{IsResidentTurn};
ghost use Rattle.kernel_model.specs.KernelRecord.ChangedStore.{HasKeeper};

use crate::console_handler::deliveries::deliver;
use crate::console_handler::keys::send_free_keys;
use crate::console_handler::lines::ConsoleState;
use crate::console_handler::presses::take_key;
use crate::console_handler::requests::take_first;
use crate::resident_requests::{finish_turn, first_packet};
use arrayvec::ArrayVec;
use byte_streams::Output;
use kernel_lists::EventLog;
use kernel_model::KindKeeper;
use kernel_model::numbers::KEY_PACKET;
use word_store::Store;

/// The turn of the console, which runs. It takes its first packet: the key packet with a key, which edits the line, or a request. A
/// read (type 1) waits for a line, the bytes of a write (2) go to the output, and any other request is refused (31). Then a finished
/// line is handed to the reads that wait, until it is delivered: the shell's goes into `shell_line`, another task's into its buffer,
/// or it is refused (30). Last, the key packet is sent to the keyboard, unless it is on a queue or a finished line waits. `awaited` is
/// the number of the task for which the shell waits, or 0; keys set its flags.
pub fn console_turn<Q: KindKeeper, L: EventLog>(
    state: &mut ConsoleState,
    shell_line: &mut ArrayVec<u8, 120>,
    awaited: u32,
    store: &mut Store,
    kinds: &mut Q,
    bytes: &mut Output,
    log: &mut L,
)
    requires empty { bytes.old ≡ [] }
    requires console { (l : Lists) × HasKeeper store.old (Q.tells kinds.old) (Q.room kinds.old) l
        × RunsConsole l }
    ensures turn { (l : Lists) → HasKeeper store.old (Q.tells kinds.old) (Q.room kinds.old) l
        → RunsConsole l
        → IsResidentTurn store.new (Q.tells kinds.new)
        (outside bytes.old (L.noted log.old) (L.has_failed log.old))
        (outside bytes.new (L.noted log.new) (L.has_failed log.new))
        (console_turn awaited state.old shell_line.old.items store.old l) }
    ensures line { (l : Lists) → HasKeeper store.old (Q.tells kinds.old) (Q.room kinds.old) l
        → RunsConsole l → state.new
        ≡ (all_parts awaited (begun store.old l state.old shell_line.old.items)).console }
    ensures shell { (l : Lists) → HasKeeper store.old (Q.tells kinds.old) (Q.room kinds.old) l
        → RunsConsole l → shell_line.new.items
        ≡ (all_parts awaited (begun store.old l state.old shell_line.old.items)).command }
    ensures room { Q.room kinds.new ≡ Q.room kinds.old }
{
    treat_first(state, awaited, store, kinds, bytes, log);
    deliver(state, shell_line, store, kinds, log);
    send_free_keys(state, store, kinds, log);
    finish_turn(store);
}

// Takes the first packet, where there is one, and treats it.
fn treat_first<Q: KindKeeper, L: EventLog>(
    state: &mut ConsoleState,
    awaited: u32,
    store: &mut Store,
    kinds: &mut Q,
    bytes: &mut Output,
    log: &mut L,
)
    requires empty { bytes.old ≡ [] }
    requires console { (b : ConsoleStart) × (k : List ℕ) × (g : ConsoleTurn)
        × IsDone b store.old (Q.tells kinds.old) (Q.room kinds.old)
        (outside bytes.old (L.noted log.old) (L.has_failed log.old)) state.old k g }
    ensures treated { (b : ConsoleStart) (k : List ℕ) (g : ConsoleTurn)
        → IsDone b store.old (Q.tells kinds.old) (Q.room kinds.old)
        (outside bytes.old (L.noted log.old) (L.has_failed log.old)) state.old k g
        → IsDone b store.new (Q.tells kinds.new) (Q.room kinds.new)
        (outside bytes.new (L.noted log.new) (L.has_failed log.new)) state.new k
        (treated awaited (work g.lists) g) }
    ensures room { Q.room kinds.new ≡ Q.room kinds.old }
{
    let Some(p) = first_packet(store) else {
        return;
    };
    if p == KEY_PACKET {
        take_key(state, awaited, store, kinds, bytes, log);
        return;
    }
    take_first(store, kinds, bytes, log);
}
