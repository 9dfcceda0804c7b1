// The keys that are typed while a machine runs.
ghost use Rattle.std.specs.Prelude.{◌≡◌, ◌≤◌, IfOk, drop, length, slice_get};
ghost use Rattle.kernel_machine.specs.RunningMachine.Script.{still_to_come, with_next_come};

use byte_streams::WantMemory;
use std::alloc::Global;
use std::marker::Model;

/// All keys, each as the step at which it is due and its byte, in the order in which they come, and how many of them have come.
#[derive(Drop)]
pub struct Script {
    /// Each key as the step at which it is due and its byte.
    keys: Vec<(u32, u8)>,
    /// How many of them have come.
    come: usize,
}

impl Model for Script {
    ghost use Rattle.std.specs.Prelude.{◌≤◌, length};
    ghost use Rattle.kernel_machine.specs.RunningMachine.Script.{KeyScript};

    ghost Value = { KeyScript };

    ghost view = { λ s. record { keys = s.keys.items; come = s.come } };

    ghost invariant = { λ s. s.come ≤ length s.keys.items };
}

impl Script {
    /// These keys, of which none has come. `WantMemory` comes only where memory could not be had.
    pub fn new(alloc: Global, keys: &[(u32, u8)]) -> Result<Script, WantMemory>
        ensures { IfOk result (λ s. s ≡ record { keys = keys.now; come = 0 }) }
    {
        match Vec::from_slice(alloc, keys) {
            Ok(keys) => Ok(Script { keys, come: 0 }),
            Err(_) => Err(WantMemory),
        }
    }

    /// The first key that is still to come, or `None` exactly where there is none.
    pub fn first(&self) -> Option<(u32, u8)>
        ensures { result ≡ slice_get (still_to_come self.now) 0 }
    {
        self.keys.get(self.come).copied()
    }

    /// The keys that are still to come, lent.
    pub fn rest(&self) -> &[(u32, u8)]
        ensures { result.now ≡ still_to_come self.now }
    {
        self.keys.get(self.come..).unwrap_or(&[])
    }

    /// All keys, lent, those that have come too.
    pub fn all(&self) -> &[(u32, u8)]
        ensures { result.now ≡ self.now.keys }
    {
        self.keys.as_slice()
    }

    /// How many keys have come: all at most.
    pub fn come(&self) -> usize
        ensures come { result ≡ self.now.come }
        ensures few { result ≤ length self.now.keys }
    {
        self.come
    }

    /// The first key that is still to come has come, if there is one.
    pub fn advance(&mut self)
        ensures all { self.new ≡ with_next_come self.old }
        ensures rest { still_to_come self.new ≡ drop 1 (still_to_come self.old) }
    {
        if self.come < self.keys.len() {
            self.come += 1;
        }
    }

    /// So many keys have come: the others are still to come, also those that had come before.
    pub fn set_come(&mut self, come: usize)
        requires { come ≤ length self.old.keys }
        ensures { self.new ≡ record self.old { come = come } }
    {
        self.come = come;
    }
}
