// The way back.
ghost use Rattle.std.specs.Prelude.{◌≡◌, ◌≤◌, List, length, ℕ};
ghost use Rattle.kernel_model.specs.KernelRecord.KernelRanges.{CanWalkLists};
ghost use Rattle.kernel_model.specs.KernelRecord.Lists.{Lists};
ghost use Rattle.kernel_model.specs.WordKinds.ByteMap.{MarksAll};
ghost use Rattle.kernel_model.specs.WordKinds.Keeper.{IsStoreOf};
ghost use Rattle.circular_buffer.specs.Buffer.{buffer};
ghost use Rattle.debugger.specs.MachineHistory.FilesBefore.{gone_back};
ghost use Rattle.debugger.specs.MachineHistory.Histories.{HasCome, HasLastFiles, HasPlaces, bare_parts_back, files_back, journal_back, last_files, moment_back, parts_back, with_files_of};

use crate::machine_history::files::{KeptFiles, go_back, is_later};
use crate::machine_history::moments::Moment;
use crate::undo_journal::Journal;
use bare_machine::BareParts;
use circular_buffer::HeapCircularBuffer;
use kernel_machine::Parts as KernelParts;
use word_store::Store;

/// Makes a machine without a kernel what it was n steps before.
pub(crate) fn bare_back(journal: &mut Journal<Moment>, n: u32, parts: &mut BareParts)
    requires words { parts.old.store ≡ journal.old.words }
    requires few { n ≤ length journal.old.past }
    ensures journal { journal.new ≡ journal_back n journal.old }
    ensures parts { parts.new ≡ bare_parts_back (moment_back n journal.old)
        (journal_back n journal.old).words parts.old }
{
    if let Some(Moment::Bare(moment)) = undo(journal, n, &mut parts.store) {
        moment.restore(parts);
    }
}

/// Makes a machine with a kernel what it was n steps before.
pub(crate) fn full_back(
    journal: &mut Journal<Moment>,
    files: &mut Option<HeapCircularBuffer<KeptFiles>>,
    n: u32,
    parts: &mut KernelParts,
)
    requires words { parts.old.store ≡ journal.old.words }
    requires few { n ≤ length journal.old.past }
    requires places { HasPlaces files.old }
    requires last { HasLastFiles files.old parts.old }
    requires walk { CanWalkLists (journal_back n journal.old).words }
    requires come { HasCome (moment_back n journal.old) parts.old }
    ensures journal { journal.new ≡ journal_back n journal.old }
    ensures files { files.new ≡ files_back parts.new.step files.old }
    ensures parts { parts.new ≡ record (parts_back (moment_back n journal.old)
        (journal_back n journal.old).words files.old parts.old) { kinds = parts.new.kinds } }
    ensures size { length parts.new.kinds ≡ length parts.old.kinds }
    ensures marks { (known : List ℕ) (l : Lists) → IsStoreOf parts.new.store known l
        → length parts.new.store ≡ length parts.old.kinds → MarksAll parts.new.kinds known }
{
    if let Some(Moment::Full(moment)) = undo(journal, n, &mut parts.store) {
        moment.restore(parts);
    }
    if let Some(ring) = files {
        restore_files(ring, parts);
    }
    parts.kinds.rebuild(&parts.store);
}

// Undoes n steps in the journal and the store. The answer is what was noted beside the last that was undone.
fn undo(journal: &mut Journal<Moment>, n: u32, store: &mut Store) -> Option<Moment>
    requires words { store.old ≡ journal.old.words }
    requires few { n ≤ length journal.old.past }
    ensures journal { journal.new ≡ journal_back n journal.old }
    ensures store { store.new ≡ (journal_back n journal.old).words }
    ensures moment { result ≡ moment_back n journal.old }
{
    let mut last = None;
    for _i in 0..n {
        last = journal.back(store);
    }
    last
}

// Forgets the files that came to be after the machine's steps, and gives it the last of those that are left. Where none are forgotten it
// has these already, and nothing is copied.
fn restore_files(ring: &mut HeapCircularBuffer<KeptFiles>, parts: &mut KernelParts)
    requires places { length ring.old.items ≤ ring.old.capacity }
    requires last { with_files_of (last_files ring.old.items) parts.old ≡ parts.old }
    ensures files { ring.new ≡ buffer (gone_back 17 parts.old.step ring.old.items) ring.old.capacity }
    ensures parts { parts.new ≡ with_files_of (last_files ring.new.items) parts.old }
{
    if !is_later(ring, parts.step) {
        return;
    }
    go_back(ring, parts.step);
    copy_files(ring, parts);
}

// Gives a machine the last of the files that are kept.
fn copy_files(ring: &HeapCircularBuffer<KeptFiles>, parts: &mut KernelParts)
    ensures { parts.new ≡ with_files_of (last_files ring.now.items) parts.old }
{
    if let Some(files) = ring.back() {
        parts.disc.copy_from(&files.disc);
        parts.pipes.copy_from(&files.pipes);
    }
}
