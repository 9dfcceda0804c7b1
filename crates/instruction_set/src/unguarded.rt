// A machine without a kernel.
ghost use Rattle.std.specs.Prelude.{false};

use word_store::{Guard, Store};

/// No word is the kernel's.
#[derive(Clone, Copy)]
pub struct NoKernel;

impl Guard for NoKernel {
    ghost can_guard = { λ _ _. Unit {0} };

    ghost marks = { λ _ _ _. false };

    fn is_kernel(&self, _store: &Store, _a: u32) -> bool {
        false
    }
}
