// A text that grows in memory.
ghost use Rattle.std.specs.Prelude.{◌≡◌, Some};

use byte_streams::{Sink, WriteStep};
use std::alloc::Global;

/// A sink that keeps what is written. Where it fails, its count of faults has risen.
#[derive(Drop)]
pub struct TextSink {
    /// What was written.
    pub bytes: Vec<u8>,
    /// How often memory could not be had: at 2 ^ 64 - 1 the count stands still.
    pub faults: u64,
}

impl TextSink {
    ghost use Rattle.std.specs.Prelude.{◌≡◌, []};

    /// A sink that has nothing.
    pub fn new(alloc: Global) -> TextSink
        ensures bytes { result.bytes.items ≡ [] }
        ensures faults { result.faults ≡ 0 }
    {
        TextSink {
            bytes: Vec::new(alloc),
            faults: 0,
        }
    }
}

impl Sink for TextSink {
    ghost holds = { λ s. Some s.bytes.items };

    ghost faults = { λ s. s.faults };

    fn write(&mut self, piece: &[u8]) -> WriteStep {
        match self.bytes.extend_from_slice(piece) {
            Ok(()) => WriteStep::All,
            Err(_) => {
                self.faults = self.faults.saturating_add(1);
                WriteStep::Failed
            }
        }
    }
}
