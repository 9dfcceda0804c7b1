// The active coroutines of a task are claimed, one after the other.
ghost use Rattle.std.specs.Prelude.{◌≡◌, ◌↔◌, ◌+◌, ◌≤◌, IsTrue, length};
ghost use Rattle.std.specs.Bool.{OnTrue};
ghost use Rattle.kernel_lists.specs.Coroutines.Active.{active_in};
ghost use Rattle.store_claims.specs.WordClaims.Marks.{AreClaimed};
ghost use Rattle.store_claims.specs.ListClaims.ListWords.{Claimable};

use crate::word_claims::Claims;
use kernel_lists::TcbField;
use word_store::{Store, word};

/// Which word of a coroutine has its parent.
pub const PARENT: u32 = 1;

/// Claims the first word of each active coroutine of the task at t, from the current one outwards. The answer is true exactly
/// where each of them is open, and none is met twice. Where the coroutines of the task alone are open, each is then one of them.
pub fn claim_active(store: &Store, own: &mut Claims, t: u32) -> bool
    requires room { length own.old ≤ length store.now }
    requires block { t + 23 ≤ length store.now }
    ensures answer { IsTrue result ↔ Claimable own.old (active_in store.now t) }
    ensures claimed { OnTrue result (AreClaimed own.old own.new (active_in store.now t)) }
    ensures size { length own.new ≡ length own.old }
{
    let mut at = store.address_of(t, TcbField::CurrentCo.index());
    for i in 0..store.size() {
        let c = word(store, at);
        if c == 0 {
            return true;
        }
        if c == t {
            return true;
        }
        if !own.claim(c, 1) {
            return false;
        }
        at = store.address_of(c, PARENT);
    }
    true
}
