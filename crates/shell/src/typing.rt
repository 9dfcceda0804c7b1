// The shell types a file, piece after piece.
ghost use Rattle.std.specs.Prelude.{◌≡◌, ◌+◌, ◌++◌, ◌≤◌, false, length, None};
ghost use Rattle.kernel_calls.specs.CallAnswers.Outside.{outside};
ghost use Rattle.ram_disc.specs.Disc.{Disc, shell_stream, stream_at};
ghost use Rattle.shell.specs.DoneParts.{IsDone, IsReady, ShellStart};
ghost use Rattle.shell.specs.TurnParts.{ShellTurn};
ghost use Rattle.shell.specs.TypedFiles.{after_piece, goes_on, is_typed, next_piece, typed, with_file_typed, with_stream_closed};

use crate::modes::Mode;
use crate::prompts::{prompt, refuse};
use crate::shell_programs::post_shell_packet;
use crate::state::ShellState;
use byte_streams::Output;
use kernel_lists::EventLog;
use kernel_model::KindKeeper;
use kernel_model::numbers::SHELL;
use ram_disc::codes::SHELL_STREAM;
use ram_disc::{Disc, Name};
use word_store::Store;

/// The most bytes of a piece.
const PIECE_SIZE: usize = 512;

/// Opens the file by the shell's stream, which is not open, and types its first piece. Refused where there is no such file (41), and
/// where a stream writes it (47).
pub(crate) fn type_file<Q: KindKeeper, L: EventLog>(
    name: &Name,
    state: &mut ShellState,
    disc: &mut Disc,
    store: &mut Store,
    kinds: &mut Q,
    bytes: &mut Output,
    log: &mut L,
)
    requires room { length bytes.old + 600 ≤ 8192 }
    requires closed { stream_at disc.old shell_stream ≡ None }
    requires ready { (b : ShellStart) × (x : ShellTurn)
        × IsReady b store.old (Q.tells kinds.old) (Q.room kinds.old)
        (outside bytes.old (L.noted log.old) (L.has_failed log.old)) state.old disc.old x }
    ensures done { (b : ShellStart) (x : ShellTurn)
        → IsReady b store.old (Q.tells kinds.old) (Q.room kinds.old)
        (outside bytes.old (L.noted log.old) (L.has_failed log.old)) state.old disc.old x
        → IsDone b store.new (Q.tells kinds.new) (Q.room kinds.new)
        (outside bytes.new (L.noted log.new) (L.has_failed log.new)) state.new disc.new false
        (with_file_typed name.now x) }
    ensures short { length bytes.new ≤ length bytes.old + 600 }
{
    match disc.open_read(name, true) {
        Ok(_) => type_on(state, disc, store, kinds, bytes, log),
        Err(code) => refuse(code, state, store, kinds, bytes, log),
    }
}

/// Types the next piece. Where the file has ended its stream is closed, and the shell prompts; else it sends its packet to itself.
pub(crate) fn type_on<Q: KindKeeper, L: EventLog>(
    state: &mut ShellState,
    disc: &mut Disc,
    store: &mut Store,
    kinds: &mut Q,
    bytes: &mut Output,
    log: &mut L,
)
    requires room { length bytes.old + 600 ≤ 8192 }
    requires ready { (b : ShellStart) × (x : ShellTurn)
        × IsReady b store.old (Q.tells kinds.old) (Q.room kinds.old)
        (outside bytes.old (L.noted log.old) (L.has_failed log.old)) state.old disc.old x }
    ensures done { (b : ShellStart) (x : ShellTurn)
        → IsReady b store.old (Q.tells kinds.old) (Q.room kinds.old)
        (outside bytes.old (L.noted log.old) (L.has_failed log.old)) state.old disc.old x
        → IsDone b store.new (Q.tells kinds.new) (Q.room kinds.new)
        (outside bytes.new (L.noted log.new) (L.has_failed log.new)) state.new disc.new false
        (typed x) }
    ensures short { length bytes.new ≤ length bytes.old + 600 }
{
    type_piece(disc, bytes);
    if is_typed(disc) {
        close(disc);
        prompt(state, store, kinds, bytes, log);
        return;
    }
    type_later(state, store, kinds, bytes, log);
}

// Writes the next bytes of the shell's stream, 512 or all that are left.
fn type_piece(disc: &mut Disc, bytes: &mut Output)
    requires { length bytes.old + 512 ≤ 8192 }
    ensures disc { disc.new ≡ after_piece disc.old }
    ensures bytes { bytes.new ≡ bytes.old ++ next_piece disc.old }
    ensures short { length bytes.new ≤ length bytes.old + 512 }
{
    let mut piece = [0; PIECE_SIZE];
    let count = disc.read_on(SHELL_STREAM, &mut piece).unwrap_or(0);
    bytes.append(&piece[..count as usize]);
}

// Whether the shell's stream is at the end of its file.
fn is_typed(disc: &Disc) -> bool
    ensures { result ≡ is_typed disc.now }
{
    let Some((name, position, _)) = disc.stream(SHELL_STREAM) else {
        return true;
    };
    position == disc.size(&name).unwrap_or(0)
}

fn close(disc: &mut Disc)
    ensures { disc.new ≡ with_stream_closed disc.old }
{
    let _not_open = disc.close(SHELL_STREAM);
}

// The shell sends its packet to itself.
fn type_later<Q: KindKeeper, L: EventLog>(
    state: &mut ShellState,
    store: &mut Store,
    kinds: &mut Q,
    bytes: &Output,
    log: &mut L,
)
    requires { (b : ShellStart) × (d : Disc) × (x : ShellTurn)
        × IsReady b store.old (Q.tells kinds.old) (Q.room kinds.old)
        (outside bytes.now (L.noted log.old) (L.has_failed log.old)) state.old d x }
    ensures { (b : ShellStart) (d : Disc) (x : ShellTurn)
        → IsReady b store.old (Q.tells kinds.old) (Q.room kinds.old)
        (outside bytes.now (L.noted log.old) (L.has_failed log.old)) state.old d x
        → IsDone b store.new (Q.tells kinds.new) (Q.room kinds.new)
        (outside bytes.now (L.noted log.new) (L.has_failed log.new)) state.new d false
        (goes_on x) }
{
    post_shell_packet(store, kinds, SHELL, log);
    state.set_mode(Mode::Typing);
}
