// Steps that are noted.
ghost use Rattle.std.specs.Prelude.{◌≡◌, ◌<◌, None, length};
ghost use Rattle.debugger.specs.UndoJournal.Journals.{noted};
ghost use Rattle.tripos_machine.specs.Breakpoints.{plain_addresses};
ghost use Rattle.instruction_set.specs.Places.{DifferAt};
ghost use Rattle.kernel_model.specs.KernelRecord.Ranges.{most_steps};
ghost use Rattle.tripos_machine.specs.State.{IsSound, steps_of, stop_of, words_of};
ghost use Rattle.tripos_machine.specs.Step.{step};

use crate::machine_history::moments::Moment;
use crate::undo_journal::Journal;
use instruction_set::Places;
use kernel_lists::{NoLog, RootField};
use tripos_machine::Machine;
use word_store::{Store, add};

/// Takes a step of a machine that has not stopped, and notes it: the words that it had go into past, with this moment beside them.
pub(crate) fn note_step(journal: &mut Journal<Moment>, machine: &mut Machine, moment: Moment)
    requires words { journal.old.words ≡ words_of machine.old.state }
    requires sound { IsSound machine.old.state }
    requires goes { stop_of machine.old.state ≡ None }
    requires steps { steps_of machine.old.state < most_steps }
    ensures state { machine.new.state ≡ (step machine.old.state).state }
    ensures output { machine.new.output ≡ (step machine.old.state).bytes }
    ensures keys { machine.new.keys ≡ machine.old.keys }
    ensures journal { journal.new ≡ noted journal.old (words_of machine.new.state) moment }
{
    match machine.execute() {
        Some(places) => note_places(journal, machine.store(), places, moment),
        None => {
            machine.step(&mut NoLog);
            journal.note(machine.store(), moment);
        }
    }
}

// Notes a step in which a guest has executed an instruction that may have written at these places. The clock may have ticked in it.
fn note_places(journal: &mut Journal<Moment>, store: &Store, places: Places, moment: Moment)
    requires size { length store.now ≡ length journal.old.words }
    requires places { DifferAt (plain_addresses places) journal.old.words store.now }
    ensures { journal.new ≡ noted journal.old store.now moment }
{
    let tick = RootField::Tick.address();
    match places {
        Places::Nowhere => journal.note_at(store, &[tick], moment),
        Places::Word(a) => journal.note_at(store, &[tick, a], moment),
        Places::Frame(a) => {
            let frame = [tick, a, add(a, 1), add(a, 2), add(a, 3)];
            journal.note_at(store, &frame, moment);
        }
    }
}
