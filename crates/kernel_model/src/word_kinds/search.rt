// A search among ranges of words.
ghost use Rattle.std.specs.Prelude.{◌≡◌, ◌+◌, ◌||◌, ◌++◌, Bool, List, ℕ, false, refl};
ghost use Rattle.std.specs.List.{list_any};
ghost use Rattle.kernel_model.specs.KernelRecord.KernelRanges.{Words, meets};
ghost use Rattle.kernel_model.specs.WordKinds.Searched.{Searched, searched_none, searched_both};

use crate::word_kinds::visits::Visitor;

/// Looks for one of the words from `from` on, up to before `to`, in the ranges that it is shown.
#[derive(Clone, Copy)]
pub struct Search {
    /// The first word that is looked for.
    from: u64,
    /// The word after the last one.
    to: u64,
    /// One of them was shown.
    found: bool,
}

impl Search {
    /// A search for the n words from a on.
    pub fn new(a: u32, n: u32) -> Search
        ensures { result ≡ record { from = a; to = a + n; found = false } }
    {
        Search {
            from: u64::from(a),
            to: u64::from(a) + u64::from(n),
            found: false,
        }
    }

    /// Whether one of them was shown.
    pub fn has_found(&self) -> bool
        ensures { result ≡ self.now.found }
    {
        self.found
    }
}

impl Visitor for Search {
    ghost shown = { λ u v ws. Searched u v ws };

    fn show(&mut self, first: u32, count: u32) {
        let first = u64::from(first);
        if count > 0
            && self.from < self.to
            && first < self.to
            && self.from < first + u64::from(count)
        {
            self.found = true;
        }
    }

    ghost shown_none = { λ v. searched_none v };

    ghost shown_both = { λ u v w xs ys one two. searched_both u v w xs ys one two };
}
