// Texts in memory, which are written to as to any sink.
#![tactic(auto)]

pub mod sinks;

pub use sinks::TextSink;
