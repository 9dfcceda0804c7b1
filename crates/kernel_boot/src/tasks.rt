// The tasks of a session.
ghost use Rattle.std.specs.Prelude.{◌≡◌, ◌≤◌, length, []};
ghost use Rattle.kernel_model.specs.KernelRecord.Lists.{Lists};
ghost use Rattle.kernel_calls.specs.CallAnswers.CallChange.{IsMade};
ghost use Rattle.kernel_boot.specs.BootTasks.{AreBootLines, AreLoaded, IsBootForm, IsLeft, MayStart, load_named, load_names, start_form, start_task, start_tasks};
ghost use Rattle.kernel_model.specs.KernelRecord.StoreWithLists.{store_with_lists};
ghost use Rattle.kernel_model.specs.KernelRecord.ChangedStore.{HasKeeper};

use crate::{BootRefusal, begin_task};
use arrayvec::ArrayVec;
use kernel_calls::{create_task_of, guest, load_module};
use kernel_model::KindKeeper;
use ram_disc::codes::NO_FILE;
use ram_disc::{Disc, Name};
use session_text::{LineForm, SessionLine};
use word_store::Store;

/// A task has the number already.
const TASK_THERE: u32 = 27;

/// The number of the maker, where no task has made a task.
const NO_MAKER: u32 = 0;

/// Starts the tasks of a session's lines, in the order of the lines: each is ready, and begins at its function once it is its
/// turn. All other lines are passed over. The first line that is refused is the answer, with its code: a task has the number
/// (27); for each name in turn, no file has it (41), its text is no module (61 to 66), or no run of free blocks is large
/// enough for the module (1); a task has the priority (8), a module has a number of a global above 1,000 (18), or no run of
/// free blocks is large enough for the task (1).
pub fn start_tasks<Q: KindKeeper>(
    store: &mut Store,
    kinds: &mut Q,
    disc: &Disc,
    lines: &[SessionLine],
) -> Result<(), BootRefusal>
    requires { (l : Lists)
        × HasKeeper store.old (Q.tells kinds.old) (Q.room kinds.old) l
        × AreBootLines l.version lines.now }
    ensures started { (l : Lists)
        → HasKeeper store.old (Q.tells kinds.old) (Q.room kinds.old) l
        → AreBootLines l.version lines.now
        → IsLeft store.new (Q.tells kinds.new) (Q.room kinds.new) result
        (start_tasks disc.now lines.now (store_with_lists store.old l)) }
    ensures room { Q.room kinds.new ≡ Q.room kinds.old }
{
    for line in lines {
        if let Err(code) = start_form(store, kinds, disc, &line.form) {
            return Err(BootRefusal {
                line: line.line,
                code,
            });
        }
    }
    Ok(())
}

// What a line starts.
fn start_form<Q: KindKeeper>(
    store: &mut Store,
    kinds: &mut Q,
    disc: &Disc,
    form: &LineForm,
) -> Result<(), u32>
    requires { (l : Lists)
        × HasKeeper store.old (Q.tells kinds.old) (Q.room kinds.old) l
        × IsBootForm l.version form.now }
    ensures started { (l : Lists)
        → HasKeeper store.old (Q.tells kinds.old) (Q.room kinds.old) l
        → IsBootForm l.version form.now
        → IsLeft store.new (Q.tells kinds.new) (Q.room kinds.new) result
        (start_form disc.now form.now (store_with_lists store.old l)) }
    ensures room { Q.room kinds.new ≡ Q.room kinds.old }
{
    match form {
        LineForm::Task {
            id,
            pri,
            stack,
            names,
        } => start_task(store, kinds, disc, *id, *pri, *stack, names.as_slice()),
        LineForm::Code(_) | LineForm::File { .. } => Ok(()),
    }
}

// A task of the modules that the files with these names have.
fn start_task<Q: KindKeeper>(
    store: &mut Store,
    kinds: &mut Q,
    disc: &Disc,
    id: u32,
    pri: u32,
    stack: u32,
    names: &[Name],
) -> Result<(), u32>
    requires { (l : Lists)
        × HasKeeper store.old (Q.tells kinds.old) (Q.room kinds.old) l
        × MayStart l.version id names.now }
    ensures started { (l : Lists)
        → HasKeeper store.old (Q.tells kinds.old) (Q.room kinds.old) l
        → MayStart l.version id names.now
        → IsLeft store.new (Q.tells kinds.new) (Q.room kinds.new) result
        (start_task disc.now id pri stack names.now (store_with_lists store.old l)) }
    ensures room { Q.room kinds.new ≡ Q.room kinds.old }
{
    if guest(store, id).is_ok() {
        return Err(TASK_THERE);
    }
    let modules = load_names(store, kinds, disc, names)?;
    let id = create_task_of(store, kinds, id, modules.as_slice(), stack, pri, NO_MAKER)?;
    begin_task(store, id);
    Ok(())
}

// Loads a module for each of the names, in their order.
fn load_names<Q: KindKeeper>(
    store: &mut Store,
    kinds: &mut Q,
    disc: &Disc,
    names: &[Name],
) -> Result<ArrayVec<u32, 8>, u32>
    requires holds { (l : Lists) × HasKeeper store.old (Q.tells kinds.old) (Q.room kinds.old) l }
    requires few { length names.now ≤ 8 }
    ensures loaded { (l : Lists)
        → HasKeeper store.old (Q.tells kinds.old) (Q.room kinds.old) l
        → AreLoaded store.new (Q.tells kinds.new) (Q.room kinds.new) result
        (load_names disc.now names.now [] (store_with_lists store.old l)) }
    ensures room { Q.room kinds.new ≡ Q.room kinds.old }
{
    let mut modules = ArrayVec::new();
    for name in names {
        modules.push(load_named(store, kinds, disc, name)?);
    }
    Ok(modules)
}

// Loads the module that the file with the name has.
fn load_named<Q: KindKeeper>(
    store: &mut Store,
    kinds: &mut Q,
    disc: &Disc,
    name: &Name,
) -> Result<u32, u32>
    requires { (l : Lists) × HasKeeper store.old (Q.tells kinds.old) (Q.room kinds.old) l }
    ensures made { (l : Lists)
        → HasKeeper store.old (Q.tells kinds.old) (Q.room kinds.old) l
        → IsMade store.old store.new (Q.tells kinds.new) result (load_named disc.now name.now l) }
    ensures room { Q.room kinds.new ≡ Q.room kinds.old }
{
    let mut sectors = ArrayVec::new();
    let Some(text) = disc.file(name, &mut sectors) else {
        return Err(NO_FILE);
    };
    load_module(store, kinds, &text)
}
