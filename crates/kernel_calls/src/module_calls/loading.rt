// A module is loaded.
ghost use Rattle.std.specs.Prelude.{◌≡◌, ◌+◌, ℕ, Err, Ok};
ghost use Rattle.module_text.specs.ModuleForm.{IsModule};
ghost use Rattle.module_text.specs.Shapes.{check_of};
ghost use Rattle.module_text.specs.declared.modules.Module.{Module};
ghost use Rattle.kernel_model.specs.KernelRecord.Lists.{Lists};
ghost use Rattle.kernel_calls.specs.CallAnswers.CallChange.{IsMade, refused};
ghost use Rattle.kernel_calls.specs.ModuleCalls.LoadModule.{load_module};
ghost use Rattle.kernel_model.specs.KernelRecord.ChangedStore.{HasKeeper};

use crate::block_calls::tell_take;
use kernel_lists::load;
use kernel_model::KindKeeper;
use module_text::{Shape, TextBytes, check_module};
use word_store::Store;

/// What is added to the code of a text that is no module.
const NO_MODULE_TEXT: u32 = 60;

/// Loads the module of the text into a block of its own, relocated, and puts it first in the list of modules. The answer is
/// its address. Refused where the text is no module, with 60 more than the code of `check_module` (61 to 66), and where no
/// run of free blocks is large enough for its words (1).
pub fn load_module<Q: KindKeeper, X: TextBytes>(
    store: &mut Store,
    kinds: &mut Q,
    text: &X,
) -> Result<u32, u32>
    requires { (l : Lists) × HasKeeper store.old (Q.tells kinds.old) (Q.room kinds.old) l }
    ensures made { (l : Lists) (m : Module)
        → HasKeeper store.old (Q.tells kinds.old) (Q.room kinds.old) l
        → IsModule (X.text text.now) m
        → IsMade store.old store.new (Q.tells kinds.new) result (load_module l m.hunks) }
    ensures no_module { (l : Lists) (code : ℕ)
        → HasKeeper store.old (Q.tells kinds.old) (Q.room kinds.old) l
        → check_of (X.text text.now) ≡ Err code
        → IsMade store.old store.new (Q.tells kinds.new) result (refused l (60 + code)) }
    ensures room { Q.room kinds.new ≡ Q.room kinds.old }
{
    let shape = match check_module(text) {
        Ok(shape) => shape,
        Err(code) => return Err(NO_MODULE_TEXT + code),
    };
    tell_take(store, kinds, last_word(text, shape))?;
    let m = load(store, text).unwrap();
    kinds.claim(m, 2 + shape.hunks);
    Ok(m)
}

// The number of the last word of the text's module.
fn last_word<X: TextBytes>(text: &X, shape: Shape) -> u32
    requires { check_of (X.text text.now) ≡ Ok shape }
    ensures { result ≡ 1 + shape.hunks + shape.words }
{
    // the text is longer than that
    let _bytes = text.len();
    1 + shape.hunks + shape.words
}
