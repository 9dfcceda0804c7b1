// A module is taken out.
ghost use Rattle.std.specs.Prelude.{◌≡◌};
ghost use Rattle.kernel_model.specs.KernelRecord.HoldsLists.{HoldsLists};
ghost use Rattle.kernel_model.specs.KernelRecord.Lists.{Lists};
ghost use Rattle.kernel_calls.specs.CallAnswers.CallChange.{IsMade, plain_answer};
ghost use Rattle.kernel_calls.specs.CallAnswers.Refusals.{answer_of, first_refusal};
ghost use Rattle.kernel_calls.specs.ModuleCalls.UnloadModule.{unload_module, use_tests};
ghost use Rattle.kernel_model.specs.KernelRecord.ChangedStore.{HasKeeper};

use crate::call_answers::codes::{MODULE_IN_USE, NO_MODULE, PACKET_INSIDE};
use crate::call_answers::is_module;
use crate::module_calls::modules_of::is_in_use;
use kernel_lists::unload;
use kernel_model::{KindKeeper, are_unowned};
use word_store::{Store, word, word_at};

/// Takes the module at m out of the list, and gives its block back. Refused where there is no such module (17), where a task
/// has it among its modules (26), and where a word of a queued packet lies in its block (7).
pub fn unload_module<Q: KindKeeper>(store: &mut Store, kinds: &mut Q, m: u32) -> Result<(), u32>
    requires { (l : Lists) × HasKeeper store.old (Q.tells kinds.old) (Q.room kinds.old) l }
    ensures made { (l : Lists)
        → HasKeeper store.old (Q.tells kinds.old) (Q.room kinds.old) l
        → IsMade store.old store.new (Q.tells kinds.new) (plain_answer result) (unload_module l m) }
    ensures room { Q.room kinds.new ≡ Q.room kinds.old }
{
    check_unused(store, m)?;
    let head = 2 + word_at(store, m, 1);
    let size = word(store, m - 1);
    if !are_unowned(store, kinds, m + head, size - 1 - head) {
        return Err(PACKET_INSIDE);
    }
    unload(store, m).unwrap();
    kinds.release(m, head);
    Ok(())
}

// Refused where no module is at m, or a task has it.
fn check_unused(store: &Store, m: u32) -> Result<(), u32>
    requires { (l : Lists) × HoldsLists store.now l }
    ensures { (l : Lists) → HoldsLists store.now l
        → result ≡ answer_of (first_refusal (use_tests l m)) }
{
    if !is_module(store, m) {
        return Err(NO_MODULE);
    }
    if is_in_use(store, m) {
        return Err(MODULE_IN_USE);
    }
    Ok(())
}
