// The quick answer: a mark for each word.
ghost use Rattle.std.specs.Prelude.{◌≡◌, IfOk, ℕ, List, length, replicate, false};
ghost use Rattle.kernel_model.specs.KernelRecord.Lists.{Lists};
ghost use Rattle.kernel_model.specs.WordKinds.ByteMap.{AreShown, IsSet, MarksAll, is_marked, shown-both, shown-none};
ghost use Rattle.kernel_model.specs.WordKinds.Keeper.{IsStoreOf};
ghost use Rattle.kernel_model.specs.KernelRecord.KernelRanges.{CanWalkLists};

use crate::word_kinds::keepers::KindKeeper;
use crate::word_kinds::visits::{Visitor, show_kernel};
use byte_streams::WantMemory;
use std::alloc::Global;
use std::marker::Model;
use word_store::{Guard, Store};

/// Keeps a mark for each word of a store, seen as their list.
#[derive(Drop)]
pub struct ByteKinds {
    /// A mark for each word of the store: it is the kernel's.
    marks: Vec<bool>,
}

impl Model for ByteKinds {
    ghost use Rattle.std.specs.Prelude.{Bool, List};

    ghost Value = { List Bool };

    ghost view = { λ k. k.marks.items };
}

impl ByteKinds {
    /// A map of the words of a store that stands for a kernel, of which exactly the kernel's are marked. `WantMemory` comes only where
    /// memory could not be had.
    pub fn of_store(alloc: Global, store: &Store) -> Result<ByteKinds, WantMemory>
        requires { CanWalkLists store.now }
        ensures size { IfOk result (λ k. length k ≡ length store.now) }
        ensures marks { IfOk result (λ k. (known : List ℕ) (l : Lists) → IsStoreOf store.now known l
            → MarksAll k known) }
    {
        let mut kinds = ByteKinds::unmarked(alloc, store.size())?;
        show_kernel(store, &mut kinds);
        Ok(kinds)
    }

    /// Marks exactly the kernel's words, where the store stands for a kernel and has as many words as the map. It takes no memory.
    pub fn rebuild(&mut self, store: &Store)
        requires { CanWalkLists store.now }
        ensures size { length self.new ≡ length self.old }
        ensures marks { (known : List ℕ) (l : Lists) → IsStoreOf store.now known l
            → length store.now ≡ length self.old → MarksAll self.new known }
    {
        self.marks.fill(false);
        show_kernel(store, self);
    }

    // A map of so many words, of which none is marked.
    fn unmarked(alloc: Global, words: u32) -> Result<ByteKinds, WantMemory>
        ensures { IfOk result (λ k. k ≡ replicate words false) }
    {
        match vec![in alloc; false; words as usize] {
            Ok(marks) => Ok(ByteKinds { marks }),
            Err(_) => Err(WantMemory),
        }
    }

    // Sets the marks of the n words from `first` on, as far as there are any.
    fn set(&mut self, first: u32, n: u32, value: bool)
        ensures { IsSet self.old self.new first n value }
    {
        let end = self.marks.len().min(first as usize + n as usize);
        for a in first as usize..end {
            self.marks[a] = value;
        }
    }
}

impl Visitor for ByteKinds {
    ghost shown = { λ u v ws. AreShown u v ws };

    fn show(&mut self, first: u32, count: u32) {
        self.set(first, count, true);
    }

    ghost shown_none = { shown-none };

    ghost shown_both = { shown-both };
}

impl Guard for ByteKinds {
    ghost can_guard = { λ _ _. Unit {0} };

    ghost marks = { λ k _ a. is_marked k a };

    fn is_kernel(&self, _store: &Store, a: u32) -> bool {
        self.marks.get(a as usize).copied().unwrap_or(false)
    }
}

impl KindKeeper for ByteKinds {
    ghost tells = { λ k known. MarksAll k known };

    ghost room = { λ k. length k };

    fn claim(&mut self, a: u32, n: u32) {
        self.set(a, n, true);
    }

    fn release(&mut self, a: u32, n: u32) {
        self.set(a, n, false);
    }

    ghost may_be_asked = { λ _ _ _ _ _ _ _. tt };

    ghost marks_known = { λ _ _ _ _ a t _ _. t a };
}
