// Bytes in and out: sources, sinks, and counts of their faults.
#![tactic(auto)]

pub mod memory;
pub mod no_sink;
pub mod output;
pub mod pending;
pub mod pieces;
pub mod sink;
pub mod source;
pub mod standard;
pub mod whole;

pub use memory::{MemorySink, MemorySource};
pub use no_sink::NoSink;
pub use output::Output;
pub use pending::{gather, pass_on};
pub use pieces::{Piece, gather_pieces, write_pieces};
pub use sink::{Sink, SinkFault, WriteStep, write_text};
pub use source::{ReadStep, Source};
pub use standard::{StdSink, StdSource};
pub use whole::{ReadEnd, read_all};

/// Memory could not be had.
#[derive(Clone, Copy, Debug)]
pub struct WantMemory;
