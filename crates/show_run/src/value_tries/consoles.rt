// The console bytes of a run, in memory.
ghost use Rattle.std.specs.Prelude.{Some};

use byte_streams::{Sink, WriteStep};
use std::alloc::Global;

/// A sink that keeps what is written. It fails only where memory cannot be had.
#[derive(Drop)]
pub struct Console {
    /// What was written.
    pub bytes: Vec<u8>,
    /// How often memory could not be had: at 2 ^ 64 - 1 the count stays as it is.
    pub faults: u64,
}

impl Console {
    ghost use Rattle.std.specs.Prelude.{◌≡◌, []};

    /// A sink that has nothing.
    pub fn new(alloc: Global) -> Console
        ensures { result.bytes.items ≡ [] }
    {
        Console {
            bytes: Vec::new(alloc),
            faults: 0,
        }
    }
}

impl Sink for Console {
    ghost holds = { λ c. Some c.bytes.items };

    ghost faults = { λ c. c.faults };

    fn write(&mut self, piece: &[u8]) -> WriteStep {
        match self.bytes.extend_from_slice(piece) {
            Ok(()) => WriteStep::All,
            Err(_) => {
                self.faults = self.faults.saturating_add(1);
                WriteStep::Failed
            }
        }
    }
}
