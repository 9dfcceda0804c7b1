// The shell starts a program.
ghost use Rattle.std.specs.Prelude.{◌≡◌};
ghost use Rattle.kernel_model.specs.KernelRecord.HoldsLists.{HoldsLists};
ghost use Rattle.kernel_model.specs.KernelRecord.Lists.{Lists};
ghost use Rattle.kernel_calls.specs.CallAnswers.CallChange.{IsMade};
ghost use Rattle.kernel_model.specs.KernelRecord.StoreWithLists.{store_with_lists};
ghost use Rattle.shell.specs.ShellPrograms.StartedProgram.{IsStarted, create_program, load_program, next_number, priority_of, start_program};
ghost use Rattle.kernel_model.specs.KernelRecord.ChangedStore.{HasKeeper};

use arrayvec::ArrayVec;
use kernel_calls::{create_task, load_module, unload_module};
use kernel_lists::{free_id, highest_id};
use kernel_model::KindKeeper;
use kernel_model::numbers::SHELL;
use ram_disc::codes::NO_FILE;
use ram_disc::{Disc, Name};
use word_store::Store;

/// Which priority a program gets. The shell has 1,000.
#[derive(Clone, Copy)]
pub enum Priority {
    /// This one.
    Given(u32),
    /// 500 more than its number.
    BelowShell,
    /// 2,000 more than its number.
    AboveShell,
}

/// The highest index of a program's stack.
const STACK: u32 = 1000;

/// The number that asks for the lowest free one, where a task is created.
const LOWEST_FREE: u32 = 0;

/// Starts a program: its file is loaded as a module, of which the shell makes a task. The task is dead: it begins with the first
/// packet that it gets, or without one by `begin_task`. The answer is its number, the lowest of a guest's that is free. Refused where no file has the name (41), with the
/// code that `rest` brings, where the text is no module (61 to 66) or no run of free blocks is large enough for it (1); where the
/// priority is not from 1 to 10,000 (9) or a task has it (8), no number is free (10), the module has a number of a global above
/// 1,000 (18), and no run of free blocks is large enough for the task (1). In these five cases the module is unloaded again. Where
/// no number is free, a priority by the number takes one more than the highest.
pub fn start_program<Q: KindKeeper>(
    store: &mut Store,
    kinds: &mut Q,
    disc: &Disc,
    program: &Name,
    rest: Result<(), u32>,
    priority: Priority,
) -> Result<u32, u32>
    requires { (l : Lists) × HasKeeper store.old (Q.tells kinds.old) (Q.room kinds.old) l }
    ensures started { (l : Lists)
        → HasKeeper store.old (Q.tells kinds.old) (Q.room kinds.old) l
        → IsStarted store.new (Q.tells kinds.new) (Q.room kinds.new) result
        (start_program disc.now program.now rest priority (store_with_lists store.old l)) }
    ensures room { Q.room kinds.new ≡ Q.room kinds.old }
{
    let module = load_program(store, kinds, disc, program, rest)?;
    create_program(store, kinds, module, priority)
}

// Loads the module of the program, where nothing else of its line is refused.
fn load_program<Q: KindKeeper>(
    store: &mut Store,
    kinds: &mut Q,
    disc: &Disc,
    program: &Name,
    rest: Result<(), u32>,
) -> Result<u32, u32>
    requires { (l : Lists) × HasKeeper store.old (Q.tells kinds.old) (Q.room kinds.old) l }
    ensures made { (l : Lists)
        → HasKeeper store.old (Q.tells kinds.old) (Q.room kinds.old) l
        → IsMade store.old store.new (Q.tells kinds.new) result
        (load_program disc.now program.now rest l) }
    ensures room { Q.room kinds.new ≡ Q.room kinds.old }
{
    let mut sectors = ArrayVec::new();
    let Some(text) = disc.file(program, &mut sectors) else {
        return Err(NO_FILE);
    };
    rest?;
    load_module(store, kinds, &text)
}

// Creates a task of the module; or unloads the module, which no task has.
fn create_program<Q: KindKeeper>(
    store: &mut Store,
    kinds: &mut Q,
    module: u32,
    priority: Priority,
) -> Result<u32, u32>
    requires { (l : Lists) × HasKeeper store.old (Q.tells kinds.old) (Q.room kinds.old) l }
    ensures started { (l : Lists)
        → HasKeeper store.old (Q.tells kinds.old) (Q.room kinds.old) l
        → IsStarted store.new (Q.tells kinds.new) (Q.room kinds.new) result
        (create_program priority «module» (store_with_lists store.old l)) }
    ensures room { Q.room kinds.new ≡ Q.room kinds.old }
{
    let pri = priority_of(store, priority);
    let created = create_task(store, kinds, LOWEST_FREE, module, STACK, pri, SHELL);
    if created.is_err() {
        let _refusal = unload_module(store, kinds, module);
    }
    created
}

// The priority that the next program gets.
fn priority_of(store: &Store, priority: Priority) -> u32
    requires { (l : Lists) × HoldsLists store.now l }
    ensures { (l : Lists) → HoldsLists store.now l → result ≡ priority_of priority l }
{
    match priority {
        Priority::Given(pri) => pri,
        Priority::BelowShell => 500 + next_number(store),
        Priority::AboveShell => 2_000 + next_number(store),
    }
}

// The lowest number of a guest's that no task has; where all are used, one more than the highest.
fn next_number(store: &Store) -> u32
    requires { (l : Lists) × HoldsLists store.now l }
    ensures { (l : Lists) → HoldsLists store.now l → result ≡ next_number l }
{
    free_id(store).unwrap_or(highest_id(store) + 1)
}
