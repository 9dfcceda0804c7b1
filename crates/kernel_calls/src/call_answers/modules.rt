// Which modules there are.
ghost use Rattle.std.specs.Prelude.{◌≡◌};
ghost use Rattle.kernel_lists.specs.LinkedList.Places.{has};
ghost use Rattle.kernel_lists.specs.LinkedList.Walk.{CanWalk};
ghost use Rattle.kernel_lists.specs.TaskBlock.Lists.{module_link, modules_in};
ghost use Rattle.kernel_lists.specs.TaskBlock.RootWords.{first_module};

use kernel_lists::modules;
use word_store::Store;

/// Whether a module is at address m.
pub fn is_module(store: &Store, m: u32) -> bool
    requires { CanWalk store.now module_link first_module }
    ensures { result ≡ has m (modules_in store.now) }
{
    for n in modules(store) {
        if n == m {
            return true;
        }
    }
    false
}
