// The slow answer: which words are the kernel's, by a walk over all of them at each question. No machine asks it; the quick one is tried
// against it.
ghost use Rattle.std.specs.Prelude.{◌^◌};
ghost use Rattle.kernel_model.specs.KernelRecord.KernelRanges.{CanWalkLists, is_kernel_word};

use crate::word_kinds::keepers::KindKeeper;
use crate::word_kinds::search::Search;
use crate::word_kinds::visits::show_kernel;
use word_store::{Guard, Store};

/// Keeps nothing, and walks the kernel's lists at each question. So it asks that they can be walked, and it may be said to know
/// any addresses.
#[derive(Clone, Copy)]
pub struct Walk;

impl Walk {
    /// One that may be asked about each store whose lists can be walked.
    pub fn new() -> Walk {
        Walk
    }
}

impl Guard for Walk {
    ghost can_guard = { λ _ s. CanWalkLists s };

    ghost marks = { λ _ s a. is_kernel_word s a };

    fn is_kernel(&self, store: &Store, a: u32) -> bool {
        let mut search = Search::new(a, 1);
        show_kernel(store, &mut search);
        search.has_found()
    }
}

impl KindKeeper for Walk {
    ghost tells = { λ _ _. Unit {0} };

    ghost room = { λ _. 2 ^ 32 };

    fn claim(&mut self, _a: u32, _n: u32) {}

    fn release(&mut self, _a: u32, _n: u32) {}

    ghost may_be_asked = { λ q s known l t i room. i.walk };

    ghost marks_known = { λ q s known l a t i room. i.kernel a };
}
