// A guard that is asked for another one.
use word_store::{Guard, Store};

/// A guard, lent: it marks what that one marks. Code that is made for each kind of guard is made once more for it.
#[derive(Clone, Copy)]
pub(crate) struct Lent<'a, X> {
    /// The guard.
    pub(crate) guard: &'a X,
}

impl<X: Guard> Guard for Lent<'_, X> {
    ghost can_guard = { λ g s. X.can_guard g.guard.now s };

    ghost marks = { λ g s a. X.marks g.guard.now s a };

    fn is_kernel(&self, store: &Store, a: u32) -> bool {
        self.guard.is_kernel(store, a)
    }
}
