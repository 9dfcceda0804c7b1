// The shell starts programs.
ghost use Rattle.std.specs.Prelude.{◌≡◌, ◌+◌, ◌≤◌, false, length};
ghost use Rattle.kernel_calls.specs.CallAnswers.Outside.{outside};
ghost use Rattle.ram_disc.specs.Disc.{Disc};
ghost use Rattle.shell.specs.DoneParts.{IsDone, IsReady, ShellStart};
ghost use Rattle.shell.specs.TurnParts.{ShellTurn};
ghost use Rattle.shell.specs.Commands.{run, run_priority, start};

use crate::modes::Mode;
use crate::prompts::{prompt, refuse};
use crate::shell_listings::write_task_number;
use crate::shell_programs::{Priority, send_shell_packet, start_program};
use crate::state::ShellState;
use byte_streams::Output;
use kernel_boot::begin_task;
use kernel_lists::EventLog;
use kernel_model::KindKeeper;
use ram_disc::{Disc, Name};
use word_store::Store;

/// The type of the request that a program gets.
const PROGRAM_REQUEST: u32 = 10;

/// Starts a program beside the shell, and writes its number. Refused as `start_program` says.
pub(crate) fn run<Q: KindKeeper, L: EventLog>(
    program: &Name,
    priority: Option<u32>,
    state: &mut ShellState,
    disc: &Disc,
    store: &mut Store,
    kinds: &mut Q,
    bytes: &mut Output,
    log: &mut L,
)
    requires room { length bytes.old + 32 ≤ 8192 }
    requires ready { (b : ShellStart) × (x : ShellTurn)
        × IsReady b store.old (Q.tells kinds.old) (Q.room kinds.old)
        (outside bytes.old (L.noted log.old) (L.has_failed log.old)) state.old disc.now x }
    ensures done { (b : ShellStart) (x : ShellTurn)
        → IsReady b store.old (Q.tells kinds.old) (Q.room kinds.old)
        (outside bytes.old (L.noted log.old) (L.has_failed log.old)) state.old disc.now x
        → IsDone b store.new (Q.tells kinds.new) (Q.room kinds.new)
        (outside bytes.new (L.noted log.new) (L.has_failed log.new)) state.new disc.now false
        (run program.now priority x) }
    ensures short { length bytes.new ≤ length bytes.old + 32 }
{
    let priority = run_priority(priority);
    match start_program(store, kinds, disc, program, Ok(()), priority) {
        Ok(id) => {
            begin_task(store, id);
            write_task_number(id, bytes);
            prompt(state, store, kinds, bytes, log);
        }
        Err(code) => refuse(code, state, store, kinds, bytes, log),
    }
}

// Where no priority is given it is below the shell's.
fn run_priority(priority: Option<u32>) -> Priority
    ensures { result ≡ run_priority priority }
{
    match priority {
        Some(priority) => Priority::Given(priority),
        None => Priority::BelowShell,
    }
}

/// Starts a program, sends it the shell's packet, and waits for it. Refused as `start_program` says, where `rest` has the code of
/// what follows the program's name.
pub(crate) fn start<Q: KindKeeper, L: EventLog>(
    program: &Name,
    rest: Result<(), u32>,
    state: &mut ShellState,
    disc: &Disc,
    store: &mut Store,
    kinds: &mut Q,
    bytes: &mut Output,
    log: &mut L,
)
    requires room { length bytes.old + 32 ≤ 8192 }
    requires ready { (b : ShellStart) × (x : ShellTurn)
        × IsReady b store.old (Q.tells kinds.old) (Q.room kinds.old)
        (outside bytes.old (L.noted log.old) (L.has_failed log.old)) state.old disc.now x }
    ensures done { (b : ShellStart) (x : ShellTurn)
        → IsReady b store.old (Q.tells kinds.old) (Q.room kinds.old)
        (outside bytes.old (L.noted log.old) (L.has_failed log.old)) state.old disc.now x
        → IsDone b store.new (Q.tells kinds.new) (Q.room kinds.new)
        (outside bytes.new (L.noted log.new) (L.has_failed log.new)) state.new disc.now false
        (start program.now rest x) }
    ensures short { length bytes.new ≤ length bytes.old + 32 }
{
    match start_program(store, kinds, disc, program, rest, Priority::AboveShell) {
        Ok(id) => {
            send_shell_packet(store, kinds, id, PROGRAM_REQUEST, log);
            state.set_mode(Mode::Waiting(id));
        }
        Err(code) => refuse(code, state, store, kinds, bytes, log),
    }
}
