// A new task is put into a block of its own.
ghost use Rattle.std.specs.Prelude.{◌≡◌, ◌+◌, ◌≤◌, ◌∷◌, ◌++◌, ℕ, List, drop, length, replicate, slice_set};
ghost use Rattle.std.specs.List.{flat_map};
ghost use Rattle.kernel_lists.specs.OwnedWords.LinkedWords.{first_of};
ghost use Rattle.kernel_lists.specs.HunkLoader.Globals.{globals_in, with_globals};
ghost use Rattle.kernel_model.specs.KernelRecord.HoldsLists.{HoldsLists};
ghost use Rattle.kernel_model.specs.KernelRecord.Lists.{Lists};
ghost use Rattle.kernel_lists.specs.TaskBlock.Versions.{head_words, most_modules};
ghost use Rattle.word_store.specs.Row.{with_words};
ghost use Rattle.kernel_calls.specs.CallAnswers.CallChange.{IsMade};
ghost use Rattle.kernel_calls.specs.TaskCalls.CreateTask.{new_task};
ghost use Rattle.kernel_calls.specs.TaskCalls.Private.NewTasks.{IsLastWord, MayPlace, MaySetGlobals, head_row, place_task};
ghost use Rattle.kernel_model.specs.KernelRecord.ChangedStore.{HasKeeper};

use crate::block_calls::getvec;
use crate::call_answers::codes::NO_ROOM;
use kernel_lists::{MOST_GLOBALS, TcbField, head_words, init_globals, insert, set_field};
use kernel_model::KindKeeper;
use kernel_model::numbers::{DEAD, GLOBAL_WORDS};
use word_store::{Store, set_word_at, set_words};

/// Which word of a task block has the second module; the others follow.
const FURTHER_MODULES: u32 = 23;

/// Takes a block for a task with the number, these modules, a stack up to the index u, and the priority, writes its words, and
/// puts it into the chain. Refused where no run of free blocks is large enough (1).
pub(crate) fn place_task<Q: KindKeeper>(
    store: &mut Store,
    kinds: &mut Q,
    number: u32,
    modules: &[u32],
    u: u32,
    pri: u32,
    maker: u32,
) -> Result<u32, u32>
    requires { (l : Lists)
        × HasKeeper store.old (Q.tells kinds.old) (Q.room kinds.old) l
        × MayPlace l number modules.now pri maker }
    ensures made { (l : Lists)
        → HasKeeper store.old (Q.tells kinds.old) (Q.room kinds.old) l
        → MayPlace l number modules.now pri maker
        → IsMade store.old store.new (Q.tells kinds.new) result
        (place_task store.old l (new_task l number modules.now u pri maker)) }
    ensures room { Q.room kinds.new ≡ Q.room kinds.old }
{
    let last = last_word(store, u)?;
    let head = head_words(store);
    let t = getvec(store, kinds, last)?;
    clear_words(store, t, last);
    write_head(store, t, number, modules, u, pri, maker);
    set_globals(store, modules, t + head);
    insert(store, t);
    kinds.claim(t, head);
    Ok(number)
}

// The highest index of the words of a task with a stack up to the index u. Refused where no store has as many (1).
fn last_word(store: &Store, u: u32) -> Result<u32, u32>
    requires { (l : Lists) × HoldsLists store.now l }
    ensures { (l : Lists) → HoldsLists store.now l → IsLastWord l u result }
{
    match u.checked_add(head_words(store) + GLOBAL_WORDS) {
        Some(last) => Ok(last),
        None => Err(NO_ROOM),
    }
}

// Clears the words 0 to `last` of what is at address a.
fn clear_words(store: &mut Store, a: u32, last: u32)
    ensures { store.new ≡ with_words store.old a (replicate (last + 1) 0) }
{
    for i in 0..last {
        set_word_at(store, a, i, 0);
    }
    set_word_at(store, a, last, 0);
}

// Writes the words of a task block, and global 0 after them, where all words are 0.
fn write_head(store: &mut Store, t: u32, number: u32, modules: &[u32], u: u32, pri: u32, maker: u32)
    requires inside { t + head_words store.old + 1001 ≤ length store.old }
    requires some { 1 ≤ length modules.now }
    requires most { length modules.now ≤ most_modules store.old }
    ensures { (s rest : List ℕ)
        → store.old ≡ with_words s t (replicate (head_words store.old) 0 ++ 0 ∷ rest)
        → store.new ≡ with_words s t
        (head_row (head_words store.old) t number modules.now u pri maker ++ 1000 ∷ rest) }
{
    let globals = store.address_of(t, head_words(store));
    let stack = store.address_of(globals, GLOBAL_WORDS);
    set_field(store, t, TcbField::Id, number);
    set_field(store, t, TcbField::Pri, pri);
    set_field(store, t, TcbField::State, DEAD);
    set_field(store, t, TcbField::Stack, stack);
    set_field(store, t, TcbField::StackTop, u);
    set_field(store, t, TcbField::Globals, globals);
    set_field(store, t, TcbField::Maker, maker);
    write_modules(store, t, modules);
    store.set(globals, MOST_GLOBALS);
}

// Writes the modules of a task.
fn write_modules(store: &mut Store, t: u32, modules: &[u32])
    requires some { 1 ≤ length modules.now }
    requires inside { t + 22 + length modules.now ≤ length store.old }
    ensures { store.new ≡ with_words
        (slice_set store.old (t + 10) (first_of (λ m. m) modules.now 0))
        (t + 23) (drop 1 modules.now) }
{
    set_field(store, t, TcbField::Module, modules[0]);
    let further = store.address_of(t, FURTHER_MODULES);
    set_words(store, further, modules.split_at(1).1);
}

// Sets the globals of the modules in the words from g on, one module after the other.
fn set_globals(store: &mut Store, modules: &[u32], g: u32)
    requires { (l : Lists) × HoldsLists store.old l
        × MaySetGlobals store.old l modules.now g }
    ensures { store.new ≡ with_globals store.old g
        (flat_map (globals_in store.old) modules.now) }
{
    for m in modules {
        init_globals(store, *m, g);
    }
}
