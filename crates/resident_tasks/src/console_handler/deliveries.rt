// A finished line is handed to the reads that wait.
ghost use Rattle.std.specs.Prelude.{◌≡◌, ◌≤◌, List, length, ℕ};
ghost use Rattle.kernel_calls.specs.CallAnswers.Outside.{outside};
ghost use Rattle.kernel_model.specs.KernelRecord.Lists.{Lists};
ghost use Rattle.resident_tasks.specs.ConsoleHandler.Deliveries.{command_after, delivery, handed_if_finished, is_handed, line_after, line_service};
ghost use Rattle.resident_tasks.specs.ConsoleHandler.TurnParts.{ConsoleStart, ConsoleTurn, IsDone};
ghost use Rattle.resident_tasks.specs.ResidentRequests.Turns.{service};
ghost use Rattle.kernel_model.specs.KernelRecord.ChangedStore.{HasKeeper};

use crate::console_handler::lines::{ConsoleState, copy_line};
use crate::console_handler::reads::take_read;
use crate::console_handler::requests::BAD_BUFFER;
use crate::resident_requests::{Request, can_write, return_request, write_buffer};
use arrayvec::ArrayVec;
use kernel_lists::EventLog;
use kernel_model::KindKeeper;
use kernel_model::numbers::{CONSOLE, SHELL};
use std::cmp::min;
use word_store::Store;

/// Hands the finished line to the reads that wait, one after the other, until it is delivered.
pub(crate) fn deliver<Q: KindKeeper, L: EventLog>(
    state: &mut ConsoleState,
    shell_line: &mut ArrayVec<u8, 120>,
    store: &mut Store,
    kinds: &mut Q,
    log: &mut L,
)
    requires { (b : ConsoleStart) × (shown : List ℕ) × (g : ConsoleTurn)
        × IsDone b store.old (Q.tells kinds.old) (Q.room kinds.old)
        (outside shown (L.noted log.old) (L.has_failed log.old)) state.old shell_line.old.items g }
    ensures done { (b : ConsoleStart) (shown : List ℕ) (g : ConsoleTurn)
        → IsDone b store.old (Q.tells kinds.old) (Q.room kinds.old)
        (outside shown (L.noted log.old) (L.has_failed log.old)) state.old shell_line.old.items g
        → IsDone b store.new (Q.tells kinds.new) (Q.room kinds.new)
        (outside shown (L.noted log.new) (L.has_failed log.new)) state.new shell_line.new.items
        (delivery g) }
    ensures room { Q.room kinds.new ≡ Q.room kinds.old }
{
    'reads: while deliver_first(state, shell_line, store, kinds, log) {}
}

// Hands the line to the first read that waits, where it is finished and one waits, and answers whether that was so. Delivered, it
// is empty.
fn deliver_first<Q: KindKeeper, L: EventLog>(
    state: &mut ConsoleState,
    shell_line: &mut ArrayVec<u8, 120>,
    store: &mut Store,
    kinds: &mut Q,
    log: &mut L,
) -> bool
    requires { (b : ConsoleStart) × (shown : List ℕ) × (g : ConsoleTurn)
        × IsDone b store.old (Q.tells kinds.old) (Q.room kinds.old)
        (outside shown (L.noted log.old) (L.has_failed log.old)) state.old shell_line.old.items g }
    ensures done { (b : ConsoleStart) (shown : List ℕ) (g : ConsoleTurn)
        → IsDone b store.old (Q.tells kinds.old) (Q.room kinds.old)
        (outside shown (L.noted log.old) (L.has_failed log.old)) state.old shell_line.old.items g
        → IsDone b store.new (Q.tells kinds.new) (Q.room kinds.new)
        (outside shown (L.noted log.new) (L.has_failed log.new)) state.new shell_line.new.items
        (handed_if_finished g) }
    ensures handed { (b : ConsoleStart) (shown : List ℕ) (g : ConsoleTurn)
        → IsDone b store.old (Q.tells kinds.old) (Q.room kinds.old)
        (outside shown (L.noted log.old) (L.has_failed log.old)) state.old shell_line.old.items g
        → result ≡ is_handed g }
    ensures room { Q.room kinds.new ≡ Q.room kinds.old }
{
    if !state.is_finished() {
        return false;
    }
    let Some(read) = take_read(store, kinds, log) else {
        return false;
    };
    let (answer, bytes) = line_answer(state.line(), store, kinds, read);
    write_buffer(store, read.first, bytes);
    return_request(store, kinds, read, CONSOLE as i32, answer, log);
    hand_line(state, shell_line, read, answer);
    true
}

// What the read gets: the shell the length of the line, another task the first bytes of it, and their number. Refused where the
// buffer may not be written (30).
fn line_answer<'a, Q: KindKeeper>(
    line: &'a [u8],
    store: &Store,
    kinds: &Q,
    read: Request,
) -> (Result<u32, u32>, &'a [u8])
    requires keeper { (l : Lists) × HasKeeper store.now (Q.tells kinds.now) (Q.room kinds.now) l }
    requires fits { length line.now ≤ 120 }
    ensures service { (l : Lists) → HasKeeper store.now (Q.tells kinds.now) (Q.room kinds.now) l
        → service result.0 read.first result.1.now ≡ line_service store.now l line.now read }
    ensures fits { length result.1.now ≤ 120 }
{
    if read.sender == SHELL {
        return (Ok(line.len() as u32), &[]);
    }
    if !can_write(store, kinds, read.packet, read.first, read.second) {
        return (Err(BAD_BUFFER), &[]);
    }
    let count = min(read.second, line.len() as u32);
    (Ok(count), &line[..count as usize])
}

// The shell has the line where the shell reads, and a line that was delivered is emptied.
fn hand_line(
    state: &mut ConsoleState,
    shell_line: &mut ArrayVec<u8, 120>,
    read: Request,
    answer: Result<u32, u32>,
)
    ensures console { state.new ≡ line_after answer state.old }
    ensures shell { shell_line.new.items
        ≡ command_after read state.old.line shell_line.old.items }
{
    if read.sender == SHELL {
        copy_line(state.line(), shell_line);
    }
    if answer.is_ok() {
        state.clear();
    }
}
