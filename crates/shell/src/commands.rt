// The shell executes a line.
ghost use Rattle.std.specs.Prelude.{◌≡◌, ◌+◌, ◌≤◌, length, None};
ghost use Rattle.kernel_calls.specs.CallAnswers.Outside.{outside};
ghost use Rattle.ram_disc.specs.Disc.{IsDisc, shell_stream, stream_at};
ghost use Rattle.shell.specs.DoneParts.{IsDone, IsReady, ShellStart};
ghost use Rattle.shell.specs.TurnParts.{ShellTurn, most_shown};
ghost use Rattle.shell.specs.Commands.{executed, line_executed};

use crate::listings::{count_blocks, list_files, list_tasks};
use crate::programs::{run, start};
use crate::prompts::{answer, prompt, refuse};
use crate::state::ShellState;
use crate::typing::type_file;
use byte_streams::Output;
use command_lines::{Command, read_command};
use kernel_calls::{change_pri, hold_task, release_task, set_flags};
use kernel_lists::EventLog;
use kernel_model::KindKeeper;
use ram_disc::Disc;
use word_store::Store;

/// Executes the line that the console has handed over; a line that is no command is refused. The answer is whether the machine is
/// finished.
pub(crate) fn execute_line<Q: KindKeeper, L: EventLog>(
    state: &mut ShellState,
    disc: &mut Disc,
    store: &mut Store,
    kinds: &mut Q,
    bytes: &mut Output,
    log: &mut L,
) -> bool
    requires room { length bytes.old + most_shown ≤ 8192 }
    requires valid { IsDisc disc.old }
    requires closed { stream_at disc.old shell_stream ≡ None }
    requires ready { (b : ShellStart) × (x : ShellTurn)
        × IsReady b store.old (Q.tells kinds.old) (Q.room kinds.old)
        (outside bytes.old (L.noted log.old) (L.has_failed log.old)) state.old disc.old x }
    ensures done { (b : ShellStart) (x : ShellTurn)
        → IsReady b store.old (Q.tells kinds.old) (Q.room kinds.old)
        (outside bytes.old (L.noted log.old) (L.has_failed log.old)) state.old disc.old x
        → IsDone b store.new (Q.tells kinds.new) (Q.room kinds.new)
        (outside bytes.new (L.noted log.new) (L.has_failed log.new)) state.new disc.new result
        (line_executed x) }
    ensures short { length bytes.new ≤ length bytes.old + most_shown }
{
    match read_command(state.line()) {
        Ok(command) => execute(command, state, disc, store, kinds, bytes, log),
        Err(code) => {
            refuse(code, state, store, kinds, bytes, log);
            false
        }
    }
}

// Does what the command asks, and prompts, unless it does something else next. The answer is whether the machine is finished.
fn execute<Q: KindKeeper, L: EventLog>(
    command: Command,
    state: &mut ShellState,
    disc: &mut Disc,
    store: &mut Store,
    kinds: &mut Q,
    bytes: &mut Output,
    log: &mut L,
) -> bool
    requires room { length bytes.old + most_shown ≤ 8192 }
    requires valid { IsDisc disc.old }
    requires closed { stream_at disc.old shell_stream ≡ None }
    requires ready { (b : ShellStart) × (x : ShellTurn)
        × IsReady b store.old (Q.tells kinds.old) (Q.room kinds.old)
        (outside bytes.old (L.noted log.old) (L.has_failed log.old)) state.old disc.old x }
    ensures done { (b : ShellStart) (x : ShellTurn)
        → IsReady b store.old (Q.tells kinds.old) (Q.room kinds.old)
        (outside bytes.old (L.noted log.old) (L.has_failed log.old)) state.old disc.old x
        → IsDone b store.new (Q.tells kinds.new) (Q.room kinds.new)
        (outside bytes.new (L.noted log.new) (L.has_failed log.new)) state.new disc.new result
        (executed command x) }
    ensures short { length bytes.new ≤ length bytes.old + most_shown }
{
    match command {
        Command::Nothing => prompt(state, store, kinds, bytes, log),
        Command::Type(name) => type_file(&name, state, disc, store, kinds, bytes, log),
        Command::Examine => list_files(state, disc, store, kinds, bytes, log),
        Command::Delete(name) => answer(disc.delete(&name), state, store, kinds, bytes, log),
        Command::Rename { from, to } => {
            answer(disc.rename(&from, &to), state, store, kinds, bytes, log);
        }
        Command::Status => list_tasks(state, store, kinds, bytes, log),
        Command::Map => count_blocks(state, store, kinds, bytes, log),
        Command::Hold(task) => answer(hold_task(store, task), state, store, kinds, bytes, log),
        Command::Release(task) => answer(
            release_task(store, task),
            state,
            store,
            kinds,
            bytes,
            log,
        ),
        Command::ChangePriority { task, priority } => {
            let outcome = change_pri(store, task, priority);
            answer(outcome, state, store, kinds, bytes, log);
        }
        Command::Break { task, flags } => {
            answer(
                set_flags(store, task, flags),
                state,
                store,
                kinds,
                bytes,
                log,
            );
        }
        Command::Run { program, priority } => {
            run(&program, priority, state, disc, store, kinds, bytes, log);
        }
        Command::Finish => return true,
        Command::Start { program, rest } => {
            start(&program, rest, state, disc, store, kinds, bytes, log);
        }
    }
    false
}
