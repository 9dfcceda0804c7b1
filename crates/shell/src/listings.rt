// The shell lists the files, the tasks and the blocks.
ghost use Rattle.std.specs.Prelude.{◌+◌, ◌≤◌, false, length};
ghost use Rattle.kernel_calls.specs.CallAnswers.Outside.{outside};
ghost use Rattle.ram_disc.specs.Disc.{Disc, IsDisc};
ghost use Rattle.shell.specs.DoneParts.{IsDone, IsReady, ShellStart};
ghost use Rattle.shell.specs.TurnParts.{ShellTurn, most_shown};
ghost use Rattle.command_lines.specs.declared.commands.Command.TheVariants.{Examine, Map, Status};
ghost use Rattle.shell.specs.Commands.{executed};

use crate::prompts::prompt;
use crate::shell_listings::{write_blocks, write_files, write_tasks};
use crate::state::ShellState;
use byte_streams::Output;
use kernel_lists::EventLog;
use kernel_model::KindKeeper;
use ram_disc::Disc;
use word_store::Store;

/// Lists the files of the disc.
pub(crate) fn list_files<Q: KindKeeper, L: EventLog>(
    state: &mut ShellState,
    disc: &Disc,
    store: &mut Store,
    kinds: &mut Q,
    bytes: &mut Output,
    log: &mut L,
)
    requires valid { IsDisc disc.now }
    requires room { length bytes.old + most_shown ≤ 8192 }
    requires ready { (b : ShellStart) × (x : ShellTurn)
        × IsReady b store.old (Q.tells kinds.old) (Q.room kinds.old)
        (outside bytes.old (L.noted log.old) (L.has_failed log.old)) state.old disc.now x }
    ensures done { (b : ShellStart) (x : ShellTurn)
        → IsReady b store.old (Q.tells kinds.old) (Q.room kinds.old)
        (outside bytes.old (L.noted log.old) (L.has_failed log.old)) state.old disc.now x
        → IsDone b store.new (Q.tells kinds.new) (Q.room kinds.new)
        (outside bytes.new (L.noted log.new) (L.has_failed log.new)) state.new disc.now false
        (executed Examine x) }
    ensures short { length bytes.new ≤ length bytes.old + most_shown }
{
    write_files(disc, bytes);
    prompt(state, store, kinds, bytes, log);
}

/// Lists the tasks.
pub(crate) fn list_tasks<Q: KindKeeper, L: EventLog>(
    state: &mut ShellState,
    store: &mut Store,
    kinds: &mut Q,
    bytes: &mut Output,
    log: &mut L,
)
    requires room { length bytes.old + most_shown ≤ 8192 }
    requires ready { (b : ShellStart) × (d : Disc) × (x : ShellTurn)
        × IsReady b store.old (Q.tells kinds.old) (Q.room kinds.old)
        (outside bytes.old (L.noted log.old) (L.has_failed log.old)) state.old d x }
    ensures done { (b : ShellStart) (d : Disc) (x : ShellTurn)
        → IsReady b store.old (Q.tells kinds.old) (Q.room kinds.old)
        (outside bytes.old (L.noted log.old) (L.has_failed log.old)) state.old d x
        → IsDone b store.new (Q.tells kinds.new) (Q.room kinds.new)
        (outside bytes.new (L.noted log.new) (L.has_failed log.new)) state.new d false
        (executed Status x) }
    ensures short { length bytes.new ≤ length bytes.old + most_shown }
{
    write_tasks(store, bytes);
    prompt(state, store, kinds, bytes, log);
}

/// Counts the blocks and their words.
pub(crate) fn count_blocks<Q: KindKeeper, L: EventLog>(
    state: &mut ShellState,
    store: &mut Store,
    kinds: &mut Q,
    bytes: &mut Output,
    log: &mut L,
)
    requires room { length bytes.old + most_shown ≤ 8192 }
    requires ready { (b : ShellStart) × (d : Disc) × (x : ShellTurn)
        × IsReady b store.old (Q.tells kinds.old) (Q.room kinds.old)
        (outside bytes.old (L.noted log.old) (L.has_failed log.old)) state.old d x }
    ensures done { (b : ShellStart) (d : Disc) (x : ShellTurn)
        → IsReady b store.old (Q.tells kinds.old) (Q.room kinds.old)
        (outside bytes.old (L.noted log.old) (L.has_failed log.old)) state.old d x
        → IsDone b store.new (Q.tells kinds.new) (Q.room kinds.new)
        (outside bytes.new (L.noted log.new) (L.has_failed log.new)) state.new d false
        (executed Map x) }
    ensures short { length bytes.new ≤ length bytes.old + most_shown }
{
    write_blocks(store, bytes);
    prompt(state, store, kinds, bytes, log);
}
