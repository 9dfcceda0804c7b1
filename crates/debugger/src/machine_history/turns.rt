// Turns in which files and pipes may change.
ghost use Rattle.std.specs.Prelude.{◌≡◌};
ghost use Rattle.debugger.specs.MachineHistory.Histories.{HasPlaces, roomy, with_files};
ghost use Rattle.debugger.specs.MachineHistory.Pasts.{files_of, is_file_turn};

use crate::machine_history::files::{KeptFiles, note_files, second_since};
use crate::machine_history::moments::Moment;
use crate::undo_journal::Journal;
use circular_buffer::HeapCircularBuffer;
use kernel_model::numbers::{FILE_HANDLER, SHELL};
use tripos_machine::Machine;

/// Whether the shell's turn or the file handler's is next.
pub(crate) fn is_file_turn(machine: &Machine) -> bool
    ensures { result ≡ is_file_turn machine.now.state }
{
    let running = machine.running();
    running == SHELL || running == FILE_HANDLER
}

/// Makes room for the step that is next, once `steps` were taken: where files may change in it, those states of the past go that were
/// before the second files which are kept came to be.
pub(crate) fn make_room(
    journal: &mut Journal<Moment>,
    files: &Option<HeapCircularBuffer<KeptFiles>>,
    steps: u64,
    may_change: bool,
)
    ensures { journal.new ≡ roomy may_change files.now steps journal.old }
{
    if !may_change {
        return;
    }
    let Some(ring) = files else {
        return;
    };
    let left = steps.saturating_sub(second_since(ring));
    if left < u64::from(journal.len()) {
        journal.keep_last(left as u32);
    }
}

/// Keeps the files that the machine has now, once it has taken so many steps, where they may have changed in the last.
pub(crate) fn keep_files(
    files: &mut Option<HeapCircularBuffer<KeptFiles>>,
    steps: u64,
    may_change: bool,
    machine: &Machine,
)
    requires { HasPlaces files.old }
    ensures { files.new ≡ with_files may_change files.old steps (files_of machine.now.state) }
{
    if !may_change {
        return;
    }
    let Some(ring) = files else {
        return;
    };
    let Some(parts) = machine.kernel_parts() else {
        return;
    };
    note_files(ring, steps, parts);
}
