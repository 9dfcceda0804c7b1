// A sink that keeps nothing.
ghost use Rattle.std.specs.Prelude.{None};

use crate::{Sink, WriteStep};

/// Takes every piece, keeps none, and never fails.
#[derive(Clone, Copy)]
pub struct NoSink;

impl Sink for NoSink {
    ghost holds = { λ _. None };

    ghost faults = { λ _. 0 };

    fn write(&mut self, _piece: &[u8]) -> WriteStep {
        WriteStep::All
    }
}
