// A coroutine is made, and deleted.
ghost use Rattle.std.specs.Prelude.{◌≡◌, ◌∷◌, OnErr, OnOk, Some};
ghost use Rattle.kernel_lists.specs.GetvecChain.Give.{given};
ghost use Rattle.kernel_lists.specs.LinkedList.Places.{without};
ghost use Rattle.kernel_lists.specs.GetvecChain.Run.{first_run, need};
ghost use Rattle.kernel_lists.specs.GetvecChain.Take.{taken};
ghost use Rattle.kernel_lists.specs.GetvecChain.Tiling.{blocks_in};
ghost use Rattle.kernel_lists.specs.Coroutines.Active.{active_in};
ghost use Rattle.kernel_lists.specs.Coroutines.Coroutines.{HasCoroutines};
ghost use Rattle.kernel_lists.specs.Coroutines.Creation.{IsCreated, deleted, highest};
ghost use Rattle.kernel_lists.specs.Coroutines.Refusals.{idle_answer};
ghost use Rattle.kernel_lists.specs.TaskBlock.Lists.{coroutines_in};

use crate::coroutine_lists::calls::BOTTOM;
use crate::coroutine_lists::ends::CoEnd;
use crate::coroutine_lists::members::check_idle;
use crate::getvec_chain::{Run, give, take_from};
use crate::linked_list::unlink;
use crate::task_block::{TcbField, field, set_field};
use word_store::{Store, set_words};

/// Which word of a coroutine links to the next one.
const LINK: u32 = 2;

/// The least highest index of a coroutine: room for its words and a few of its stack.
pub const LEAST_HIGHEST: u32 = 16;

/// Makes a coroutine of the task at t, which will start at the function `entry`, in a block with the data words 0 to u, or
/// to 16 where u is less. The block is at the front of the run, which is the first that is large enough. The coroutine is the
/// first in the task's list. The answer is its address.
pub fn create(store: &mut Store, run: Run, t: u32, entry: u32, u: u32) -> u32
    requires coroutines { HasCoroutines store.old t }
    requires first { first_run (need (highest u)) (blocks_in store.old) ≡ Some run }
    ensures words { IsCreated store.old store.new t result entry u }
    ensures blocks { blocks_in store.new ≡ taken (need (highest u)) (blocks_in store.old) }
    ensures coroutines { coroutines_in store.new t ≡ result ∷ coroutines_in store.old t }
    ensures active { active_in store.new t ≡ active_in store.old t }
    ensures valid { HasCoroutines store.new t }
{
    let highest = u.max(LEAST_HIGHEST);
    let next = field(store, t, TcbField::FirstCo);
    let c = take_from(store, run, highest);
    let bottom = store.address_of(c, BOTTOM);
    set_words(
        store,
        c,
        &[bottom, 0, next, entry, highest, c, entry, 0, 0, entry],
    );
    set_field(store, t, TcbField::FirstCo, c);
    c
}

/// Deletes the coroutine c of the task at t and gives its block back.
pub fn delete(store: &mut Store, t: u32, c: u32) -> Result<(), CoEnd>
    requires { HasCoroutines store.old t }
    ensures answer { result ≡ idle_answer store.old t c }
    ensures words { OnOk result (store.new ≡ deleted store.old t c) }
    ensures blocks { OnOk result (blocks_in store.new ≡ given c (blocks_in store.old)) }
    ensures coroutines { OnOk result
        (coroutines_in store.new t ≡ without c (coroutines_in store.old t)) }
    ensures active { active_in store.new t ≡ active_in store.old t }
    ensures valid { HasCoroutines store.new t }
    ensures unchanged { OnErr result (store.new ≡ store.old) }
{
    check_idle(store, t, c)?;
    let head = store.address_of(t, TcbField::FirstCo.index());
    unlink(store, head, c, LINK);
    give(store, c).unwrap();
    Ok(())
}
