// The shell prompts, also after it has told the code of a refusal.
ghost use Rattle.std.specs.Prelude.{◌+◌, ◌≤◌, false, length};
ghost use Rattle.kernel_calls.specs.CallAnswers.Outside.{outside};
ghost use Rattle.ram_disc.specs.Disc.{Disc};
ghost use Rattle.shell.specs.DoneParts.{IsDone, IsReady, ShellStart};
ghost use Rattle.shell.specs.TurnParts.{ShellTurn};
ghost use Rattle.shell.specs.Prompts.{answered, prompted, refused};

use crate::modes::Mode;
use crate::shell_listings::write_error;
use crate::shell_programs::send_shell_packet;
use crate::state::ShellState;
use byte_streams::Output;
use kernel_lists::EventLog;
use kernel_model::KindKeeper;
use kernel_model::numbers::CONSOLE;
use resident_tasks::console_handler::READ_LINE;
use word_store::Store;

const PROMPT: &[u8] = b"> ";

/// Writes the prompt, and asks the console for a line.
pub(crate) fn prompt<Q: KindKeeper, L: EventLog>(
    state: &mut ShellState,
    store: &mut Store,
    kinds: &mut Q,
    bytes: &mut Output,
    log: &mut L,
)
    requires room { length bytes.old + 2 ≤ 8192 }
    requires ready { (b : ShellStart) × (d : Disc) × (x : ShellTurn)
        × IsReady b store.old (Q.tells kinds.old) (Q.room kinds.old)
        (outside bytes.old (L.noted log.old) (L.has_failed log.old)) state.old d x }
    ensures done { (b : ShellStart) (d : Disc) (x : ShellTurn)
        → IsReady b store.old (Q.tells kinds.old) (Q.room kinds.old)
        (outside bytes.old (L.noted log.old) (L.has_failed log.old)) state.old d x
        → IsDone b store.new (Q.tells kinds.new) (Q.room kinds.new)
        (outside bytes.new (L.noted log.new) (L.has_failed log.new)) state.new d false
        (prompted x) }
    ensures short { length bytes.new ≤ length bytes.old + 2 }
{
    bytes.append(PROMPT);
    send_shell_packet(store, kinds, CONSOLE, READ_LINE, log);
    state.set_mode(Mode::Reading);
}

/// Writes the code of a refusal, and prompts.
pub(crate) fn refuse<Q: KindKeeper, L: EventLog>(
    code: u32,
    state: &mut ShellState,
    store: &mut Store,
    kinds: &mut Q,
    bytes: &mut Output,
    log: &mut L,
)
    requires room { length bytes.old + 32 ≤ 8192 }
    requires ready { (b : ShellStart) × (d : Disc) × (x : ShellTurn)
        × IsReady b store.old (Q.tells kinds.old) (Q.room kinds.old)
        (outside bytes.old (L.noted log.old) (L.has_failed log.old)) state.old d x }
    ensures done { (b : ShellStart) (d : Disc) (x : ShellTurn)
        → IsReady b store.old (Q.tells kinds.old) (Q.room kinds.old)
        (outside bytes.old (L.noted log.old) (L.has_failed log.old)) state.old d x
        → IsDone b store.new (Q.tells kinds.new) (Q.room kinds.new)
        (outside bytes.new (L.noted log.new) (L.has_failed log.new)) state.new d false
        (refused code x) }
    ensures short { length bytes.new ≤ length bytes.old + 32 }
{
    write_error(code, bytes);
    prompt(state, store, kinds, bytes, log);
}

/// Prompts after a command that was done; after one that was refused it writes the code before.
pub(crate) fn answer<Q: KindKeeper, L: EventLog>(
    outcome: Result<(), u32>,
    state: &mut ShellState,
    store: &mut Store,
    kinds: &mut Q,
    bytes: &mut Output,
    log: &mut L,
)
    requires room { length bytes.old + 32 ≤ 8192 }
    requires ready { (b : ShellStart) × (d : Disc) × (x : ShellTurn)
        × IsReady b store.old (Q.tells kinds.old) (Q.room kinds.old)
        (outside bytes.old (L.noted log.old) (L.has_failed log.old)) state.old d x }
    ensures done { (b : ShellStart) (d : Disc) (x : ShellTurn)
        → IsReady b store.old (Q.tells kinds.old) (Q.room kinds.old)
        (outside bytes.old (L.noted log.old) (L.has_failed log.old)) state.old d x
        → IsDone b store.new (Q.tells kinds.new) (Q.room kinds.new)
        (outside bytes.new (L.noted log.new) (L.has_failed log.new)) state.new d false
        (answered outcome x) }
    ensures short { length bytes.new ≤ length bytes.old + 32 }
{
    match outcome {
        Ok(()) => prompt(state, store, kinds, bytes, log),
        Err(code) => refuse(code, state, store, kinds, bytes, log),
    }
}
