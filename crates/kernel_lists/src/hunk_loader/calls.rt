// A module is loaded from its text, and taken out again.
ghost use Rattle.std.specs.Prelude.{◌≡◌, ◌+◌, ◌∷◌, IfErr, IfOk, Ok, OnErr, OnOk, false, true};
ghost use Rattle.kernel_lists.specs.GetvecChain.Give.{given, given_store};
ghost use Rattle.kernel_lists.specs.GetvecChain.Tiling.{blocks_in};
ghost use Rattle.module_text.specs.Shapes.{check_of};
ghost use Rattle.kernel_lists.specs.LinkedList.Places.{has, without, without_node};
ghost use Rattle.kernel_lists.specs.TaskBlock.Lists.{module_link, modules_in};
ghost use Rattle.kernel_lists.specs.TaskBlock.RootWords.{first_module};
ghost use Rattle.kernel_lists.specs.HunkLoader.LoadOutcome.{IsLoaded, IsRefused};
ghost use Rattle.kernel_lists.specs.HunkLoader.Modules.{HasModules};

use crate::getvec_chain::{give, take};
use crate::hunk_loader::placement::place_module;
use crate::linked_list::unlink;
use crate::task_block::{RootField, root, set_root};
use module_text::{Shape, TextBytes, check_module};
use word_store::Store;

/// Why no module was loaded.
#[derive(Clone, Copy)]
pub enum LoadEnd {
    /// The text is no module: the code of `check_module`.
    Module(u32),
    /// No run of free blocks is large enough for the module's words.
    NoRoom,
}

/// No module of the list is there.
#[derive(Clone, Copy)]
pub struct NoModule;

/// Which word of a module links to the next one.
const MODULE_LINK: u32 = 0;

/// Loads the module of the text into a block of its own, relocated, and puts it first in the list of modules. The answer
/// is its address.
pub fn load<X: TextBytes>(store: &mut Store, text: &X) -> Result<u32, LoadEnd>
    requires { HasModules store.old }
    ensures loaded { IfOk result (IsLoaded store.old store.new (X.text text.now)) }
    ensures first { IfOk result (λ m. modules_in store.new ≡ m ∷ modules_in store.old) }
    ensures refused { IfErr result (IsRefused store.old (X.text text.now)) }
    ensures unchanged { OnErr result (store.new ≡ store.old) }
    ensures modules { HasModules store.new }
{
    let shape = match check_module(text) {
        Ok(shape) => shape,
        Err(code) => return Err(LoadEnd::Module(code)),
    };
    let Ok(m) = take(store, last_word(text, shape)) else {
        return Err(LoadEnd::NoRoom);
    };
    let link = root(store, RootField::FirstModule);
    place_module(text, store, m, link, shape.hunks);
    set_root(store, RootField::FirstModule, m);
    Ok(m)
}

// The number of the last word of the text's module.
fn last_word<X: TextBytes>(text: &X, shape: Shape) -> u32
    requires { check_of (X.text text.now) ≡ Ok shape }
    ensures { result ≡ 1 + shape.hunks + shape.words }
{
    // the text is longer than that
    let _bytes = text.len();
    1 + shape.hunks + shape.words
}

/// Takes the module at m out of the list, and gives its block back.
pub fn unload(store: &mut Store, m: u32) -> Result<(), NoModule>
    requires { HasModules store.old }
    ensures listed { OnOk result (has m (modules_in store.old) ≡ true) }
    ensures without { OnOk result (modules_in store.new ≡ without m (modules_in store.old)) }
    ensures words { OnOk result
        (store.new ≡ given_store (without_node store.old module_link first_module m) m) }
    ensures blocks { OnOk result (blocks_in store.new ≡ given m (blocks_in store.old)) }
    ensures not_listed { OnErr result (has m (modules_in store.old) ≡ false) }
    ensures unchanged { OnErr result (store.new ≡ store.old) }
    ensures modules { HasModules store.new }
{
    if !unlink(store, RootField::FirstModule.address(), m, MODULE_LINK) {
        return Err(NoModule);
    }
    give(store, m).unwrap();
    Ok(())
}
