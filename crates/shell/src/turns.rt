// The turn of the shell.
ghost use Rattle.std.specs.Prelude.{◌≡◌, ◌+◌, ◌++◌, ◌≤◌, [], false, is_some, length};
ghost use Rattle.kernel_calls.specs.CallAnswers.Outside.{outside};
ghost use Rattle.kernel_model.specs.KernelRecord.Between.{is_typing};
ghost use Rattle.kernel_model.specs.KernelRecord.Lists.{Lists};
ghost use Rattle.ram_disc.specs.Disc.{Disc, IsDisc, shell_stream, stream_at};
ghost use Rattle.shell.specs.DoneParts.{IsDone, IsReady, IsShellTurn, ShellStart};
ghost use Rattle.shell.specs.ShellTurn.{RunsShell, first_treated, program_ended, return_code, shell_turn, treated_in};
ghost use Rattle.shell.specs.TurnParts.{ShellTurn, most_shown};
ghost use Rattle.resident_tasks.specs.declared.resident_requests.requests.Request.{Request};
ghost use Rattle.kernel_model.specs.KernelRecord.ChangedStore.{HasKeeper};

use crate::commands::execute_line;
use crate::modes::Mode;
use crate::prompts::prompt;
use crate::shell_listings::write_return_code;
use crate::shell_programs::clear_up;
use crate::state::ShellState;
use crate::typing::type_on;
use byte_streams::Output;
use kernel_lists::EventLog;
use kernel_model::KindKeeper;
use kernel_model::numbers::{CONSOLE, RES1, SHELL, SHELL_PACKET};
use ram_disc::Disc;
use resident_tasks::{
    Request, UNKNOWN_TYPE, finish_turn, first_packet, return_request, take_request,
};
use word_store::{Store, word_at};

/// The turn of the shell, which runs. Where it has a packet it clears up, and takes the first. A packet other than its own is refused
/// (31). With its own it does what its mode says: it prompts; or executes the line, where the packet comes from the console; or tells
/// what the program has given back, for which it waited, and prompts; or types on. Then it waits where it has no packets, and
/// still runs where it has some. The answer is whether the line was the command that finishes the machine; then nothing more is done.
pub fn shell_turn<Q: KindKeeper, L: EventLog>(
    state: &mut ShellState,
    disc: &mut Disc,
    store: &mut Store,
    kinds: &mut Q,
    bytes: &mut Output,
    log: &mut L,
) -> bool
    requires empty { bytes.old ≡ [] }
    requires shell { (l : Lists) × HasKeeper store.old (Q.tells kinds.old) (Q.room kinds.old) l
        × RunsShell l state.old disc.old }
    ensures turn { (l : Lists) → HasKeeper store.old (Q.tells kinds.old) (Q.room kinds.old) l
        → RunsShell l state.old disc.old
        → IsShellTurn store.new (Q.tells kinds.new) (Q.room kinds.new)
        (outside bytes.old (L.noted log.old) (L.has_failed log.old))
        (outside bytes.new (L.noted log.new) (L.has_failed log.new)) state.new disc.new result
        (shell_turn store.old l state.old disc.old) }
    ensures short { length bytes.new ≤ most_shown }
    ensures room { Q.room kinds.new ≡ Q.room kinds.old }
{
    let Some(_) = first_packet(store) else {
        finish_turn(store);
        return false;
    };
    clear_up(store, kinds);
    if treat_first(state, disc, store, kinds, bytes, log) {
        return true;
    }
    finish_turn(store);
    false
}

// Takes the first packet, where there is one, and treats it. The answer is whether the machine is finished.
fn treat_first<Q: KindKeeper, L: EventLog>(
    state: &mut ShellState,
    disc: &mut Disc,
    store: &mut Store,
    kinds: &mut Q,
    bytes: &mut Output,
    log: &mut L,
) -> bool
    requires empty { bytes.old ≡ [] }
    requires valid { IsDisc disc.old }
    requires typing { is_some (stream_at disc.old shell_stream) ≡ is_typing state.old.mode }
    requires done { (b : ShellStart) × (x : ShellTurn)
        × IsDone b store.old (Q.tells kinds.old) (Q.room kinds.old)
        (outside bytes.old (L.noted log.old) (L.has_failed log.old)) state.old disc.old false x }
    ensures done { (b : ShellStart) (x : ShellTurn)
        → IsDone b store.old (Q.tells kinds.old) (Q.room kinds.old)
        (outside bytes.old (L.noted log.old) (L.has_failed log.old)) state.old disc.old false x
        → IsDone b store.new (Q.tells kinds.new) (Q.room kinds.new)
        (outside bytes.new (L.noted log.new) (L.has_failed log.new)) state.new disc.new result
        (first_treated x) }
    ensures short { length bytes.new ≤ length bytes.old + most_shown }
{
    let Some(request) = take_request(store, kinds, log) else {
        return false;
    };
    if request.packet != SHELL_PACKET {
        return_request(store, kinds, request, SHELL as i32, Err(UNKNOWN_TYPE), log);
        return false;
    }
    treat_own(request, state, disc, store, kinds, bytes, log)
}

// Does what the shell's mode says of its own packet. The answer is whether the machine is finished.
fn treat_own<Q: KindKeeper, L: EventLog>(
    request: Request,
    state: &mut ShellState,
    disc: &mut Disc,
    store: &mut Store,
    kinds: &mut Q,
    bytes: &mut Output,
    log: &mut L,
) -> bool
    requires empty { bytes.old ≡ [] }
    requires valid { IsDisc disc.old }
    requires typing { is_some (stream_at disc.old shell_stream) ≡ is_typing state.old.mode }
    requires ready { (b : ShellStart) × (x : ShellTurn)
        × IsReady b store.old (Q.tells kinds.old) (Q.room kinds.old)
        (outside bytes.old (L.noted log.old) (L.has_failed log.old)) state.old disc.old x }
    ensures done { (b : ShellStart) (x : ShellTurn)
        → IsReady b store.old (Q.tells kinds.old) (Q.room kinds.old)
        (outside bytes.old (L.noted log.old) (L.has_failed log.old)) state.old disc.old x
        → IsDone b store.new (Q.tells kinds.new) (Q.room kinds.new)
        (outside bytes.new (L.noted log.new) (L.has_failed log.new)) state.new disc.new result
        (treated_in state.old.mode request x) }
    ensures short { length bytes.new ≤ length bytes.old + most_shown }
{
    match state.mode() {
        Mode::Prompt => prompt(state, store, kinds, bytes, log),
        Mode::Reading => {
            if request.sender == CONSOLE {
                return execute_line(state, disc, store, kinds, bytes, log);
            }
            prompt(state, store, kinds, bytes, log);
        }
        Mode::Waiting(_) => end_program(state, store, kinds, bytes, log),
        Mode::Typing => type_on(state, disc, store, kinds, bytes, log),
    }
    false
}

// Tells what the program has given back, and prompts.
fn end_program<Q: KindKeeper, L: EventLog>(
    state: &mut ShellState,
    store: &mut Store,
    kinds: &mut Q,
    bytes: &mut Output,
    log: &mut L,
)
    requires empty { bytes.old ≡ [] }
    requires ready { (b : ShellStart) × (d : Disc) × (x : ShellTurn)
        × IsReady b store.old (Q.tells kinds.old) (Q.room kinds.old)
        (outside bytes.old (L.noted log.old) (L.has_failed log.old)) state.old d x }
    ensures done { (b : ShellStart) (d : Disc) (x : ShellTurn)
        → IsReady b store.old (Q.tells kinds.old) (Q.room kinds.old)
        (outside bytes.old (L.noted log.old) (L.has_failed log.old)) state.old d x
        → IsDone b store.new (Q.tells kinds.new) (Q.room kinds.new)
        (outside bytes.new (L.noted log.new) (L.has_failed log.new)) state.new d false
        (program_ended x) }
    ensures short { length bytes.new ≤ length bytes.old + most_shown }
{
    write_result(word_at(store, SHELL_PACKET, RES1), bytes);
    prompt(state, store, kinds, bytes, log);
}

// Writes what a program has given back, unless it is 0.
fn write_result(given: u32, bytes: &mut Output)
    requires { length bytes.old + 32 ≤ 8192 }
    ensures text { bytes.new ≡ bytes.old ++ return_code given }
    ensures short { length bytes.new ≤ length bytes.old + 32 }
{
    if given == 0 {
        return;
    }
    write_return_code(given, bytes);
}
