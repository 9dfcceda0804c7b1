// The addresses at which a run is to stop.
ghost use Rattle.std.specs.Prelude.{◌≡◌, ◌≤◌, [], length};
ghost use Rattle.instruction_set.specs.Breakpoints.{has_breakpoint};
ghost use Rattle.debugger.specs.Breakpoints.{is_full_for, most_breakpoints, with_breakpoint, without_breakpoint};

use arrayvec::ArrayVec;
use instruction_set::has_breakpoint;
use std::marker::Model;

/// At most 16 byte addresses, each once.
#[derive(Drop)]
pub struct Breakpoints {
    addresses: ArrayVec<u32, 16>,
}

impl Model for Breakpoints {
    ghost use Rattle.std.specs.Prelude.{ℕ, List};

    ghost Value = { List ℕ };

    ghost view = { λ b. b.addresses.items };
}

impl Breakpoints {
    /// No addresses.
    pub fn new() -> Breakpoints
        ensures { result ≡ [] }
    {
        Breakpoints {
            addresses: ArrayVec::new(),
        }
    }

    /// The addresses, lent.
    pub fn as_slice(&self) -> &[u32]
        ensures { result.now ≡ self.now }
    {
        self.addresses.as_slice()
    }

    /// Whether the address is one of them.
    pub fn has(&self, a: u32) -> bool
        ensures { result ≡ has_breakpoint a self.now }
    {
        has_breakpoint(a, self.as_slice())
    }

    /// Adds the address, if it is none of them and there is room. The answer is whether there was none for it.
    pub fn add(&mut self, a: u32) -> bool
        ensures full { result ≡ is_full_for a self.old }
        ensures added { self.new ≡ with_breakpoint a self.old }
    {
        if self.has(a) {
            return false;
        }
        self.addresses.try_push(a).is_err()
    }

    /// Takes the address away.
    pub fn remove(&mut self, a: u32)
        ensures { self.new ≡ without_breakpoint a self.old }
    {
        self.addresses.retain(|b| *b != a);
    }
}
