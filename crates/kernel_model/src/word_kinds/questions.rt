// Questions about ranges of words.
ghost use Rattle.std.specs.Prelude.{◌≡◌, ◌+◌, ◌↔◌, IsTrue};
ghost use Rattle.std.specs.List.{list_any};
ghost use Rattle.kernel_model.specs.KernelRecord.KernelRanges.{AreClear, CanWalkLists, meets, packet_ranges};

use crate::word_kinds::keepers::KindKeeper;
use crate::word_kinds::search::Search;
use crate::word_kinds::visits::show_packets;
use word_store::Store;

/// Whether none of the n words from a on is the kernel's.
pub fn clear<Q: KindKeeper>(kinds: &Q, store: &Store, a: u32, n: u32) -> bool
    requires { Q.can_guard kinds.now store.now }
    ensures { IsTrue result ↔ AreClear (Q.marks kinds.now store.now) a (a + n) }
{
    let end = a.saturating_add(n);
    for b in a..end {
        if kinds.is_kernel(store, b) {
            return false;
        }
    }
    if end - a == n {
        return true;
    }
    // the largest address is one of them as well
    !kinds.is_kernel(store, u32::MAX)
}

/// Whether one of the n words from a on is among the words 0 to 4 of a queued packet.
pub fn packet_in(store: &Store, a: u32, n: u32) -> bool
    requires { CanWalkLists store.now }
    ensures { result ≡ list_any (meets a (a + n)) (packet_ranges store.now) }
{
    let mut search = Search::new(a, n);
    show_packets(store, &mut search);
    search.has_found()
}
