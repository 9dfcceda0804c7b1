// Which words a guest may not write.
ghost use Rattle.std.specs.Prelude.{◌≡◌, ℕ, Bool, List};

use crate::Store;

/// Tells the kernel's words from plain ones.
pub trait Guard {
    /// What the guard asks of the store that it is shown.
    ghost can_guard: { Self → List ℕ → Type 0 };

    /// Whether the word at an address is the kernel's.
    ghost marks: { Self → List ℕ → ℕ → Bool };

    /// Whether the word at address a is the kernel's.
    fn is_kernel(&self, store: &Store, a: u32) -> bool
        requires { can_guard self.now store.now }
        ensures { result ≡ marks self.now store.now a };
}
