// What is gathered of what a machine or the debugger tells.
ghost use Rattle.std.specs.Prelude.{◌≡◌, ◌++◌, [], IfOk};

use byte_streams::{Output, pass_on};
use std::alloc::{AllocError, Global};
use std::mem;
use text_sinks::TextSink;

/// What is gathered of what a machine or the debugger tells.
#[derive(Drop)]
pub struct Gathered {
    /// What has left the pending bytes.
    pub sink: TextSink,
    /// The bytes that are pending.
    pub pending: Output,
}

impl Gathered {
    ghost use Rattle.std.specs.Prelude.{◌≡◌, ◌++◌, [], IfOk};

    /// Nothing.
    pub fn new(alloc: Global) -> Gathered
        ensures sink { result.sink.bytes.items ≡ [] }
        ensures pending { result.pending ≡ [] }
    {
        Gathered {
            sink: TextSink::new(alloc),
            pending: Output::new(),
        }
    }

    /// Whether nothing is gathered.
    pub fn is_empty(&self) -> bool {
        self.pending.bytes().is_empty() && self.sink.bytes.is_empty()
    }

    /// All that is gathered, after which nothing is.
    pub fn take(&mut self, alloc: Global) -> Result<Vec<u8>, AllocError>
        ensures { IfOk result (λ v. v.items ≡ self.old.sink.bytes.items ++ self.old.pending) }
    {
        match pass_on(&mut self.sink, &mut self.pending) {
            Ok(()) => Ok(mem::replace(&mut self.sink.bytes, Vec::new(alloc))),
            Err(_) => Err(AllocError),
        }
    }
}
