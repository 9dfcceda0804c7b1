// The tests of the modules of a new task.
ghost use Rattle.std.specs.Prelude.{◌≡◌, ◌∷◌, [], not, true, map};
ghost use Rattle.std.specs.List.{AllByRecursion, list_any};
ghost use Rattle.kernel_lists.specs.LinkedList.Places.{has};
ghost use Rattle.kernel_lists.specs.LinkedList.Walk.{CanWalk};
ghost use Rattle.kernel_lists.specs.TaskBlock.Lists.{module_link, modules_in};
ghost use Rattle.kernel_lists.specs.TaskBlock.RootWords.{first_module};
ghost use Rattle.kernel_lists.specs.HunkLoader.Modules.{HasModules};
ghost use Rattle.kernel_calls.specs.CallAnswers.Refusals.{answer_of, first_refusal};
ghost use Rattle.kernel_calls.specs.TaskCalls.CreateTask.{has_high_globals};

use crate::call_answers::codes::{GLOBALS_TOO_HIGH, NO_MODULE};
use crate::call_answers::is_module;
use kernel_lists::globals_fit;
use word_store::Store;

/// Refused where one of these is no module.
pub(crate) fn check_modules(store: &Store, modules: &[u32]) -> Result<(), u32>
    requires { CanWalk store.now module_link first_module }
    ensures { result ≡ answer_of (first_refusal
        ((not (list_any (λ m. not (has m (modules_in store.now))) modules.now), 17) ∷ [])) }
{
    for m in modules {
        if !is_module(store, *m) {
            return Err(NO_MODULE);
        }
    }
    Ok(())
}

/// Refused where a hunk of one of these modules has a higher number of a global than there are.
pub(crate) fn check_globals(store: &Store, modules: &[u32]) -> Result<(), u32>
    requires modules { HasModules store.now }
    requires listed { AllByRecursion (λ m. has m (modules_in store.now) ≡ true) modules.now }
    ensures { result ≡ answer_of (first_refusal
        ((not (list_any (has_high_globals store.now) modules.now), 18) ∷ [])) }
{
    for m in modules {
        if has_high_globals(store, *m) {
            return Err(GLOBALS_TOO_HIGH);
        }
    }
    Ok(())
}

// Whether a hunk of the module does.
fn has_high_globals(store: &Store, m: u32) -> bool
    requires modules { HasModules store.now }
    requires listed { has m (modules_in store.now) ≡ true }
    ensures { result ≡ has_high_globals store.now m }
{
    !globals_fit(store, m)
}
