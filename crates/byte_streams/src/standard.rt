// A source over any reader, and a sink over any writer.
ghost use Rattle.std.specs.Prelude.{◌≡◌, ◌≤◌, length, take, MatchResult};
ghost use Rattle.std.specs.Io.KnownBytes.{Appends, Keeps};
ghost use Rattle.byte_streams.specs.Write.{Prints};

use crate::{ReadStep, Sink, SinkFault, Source, WriteStep};
use std::io::{ErrorKind, Read, Write};
use std::marker::Model;

/// A source over any reader. It tells the bytes that the reader tells.
#[derive(Drop)]
pub struct StdSource<R: Read + Drop> {
    /// The reader.
    reader: R,
    /// How many reads there were.
    calls: u64,
    /// How many reads failed.
    faults: u64,
}

impl<R: Read + Drop> Model for StdSource<R> {
    ghost use Rattle.byte_streams.specs.Standard.{ReadStream};

    ghost Value = { ReadStream };

    ghost view = { λ s. record { bytes = R.remaining s.reader; calls = s.calls; faults = s.faults } };
}

impl<R: Read + Drop> StdSource<R> {
    /// A source that was not read, and has not failed.
    pub fn new(reader: R) -> Self
        ensures { result ≡ record { bytes = R.remaining reader; calls = 0; faults = 0 } }
    {
        StdSource {
            reader,
            calls: 0,
            faults: 0,
        }
    }
}

impl<R: Read + Drop> Source for StdSource<R> {
    ghost left = { λ s. s.bytes };

    ghost calls = { λ s. s.calls };

    ghost faults = { λ s. s.faults };

    fn read(&mut self, into: &mut [u8]) -> ReadStep {
        self.calls = self.calls.saturating_add(1);
        match self.reader.read(into) {
            Ok(0) => ReadStep::End,
            Ok(n) => ReadStep::Got(n),
            Err(_) => {
                self.faults = self.faults.saturating_add(1);
                ReadStep::Failed
            }
        }
    }
}

/// A sink over any writer. It tells the bytes that the writer tells. Each write ends with a flush,
/// whose failure is `Failed`.
#[derive(Drop)]
pub struct StdSink<W: Write + Drop> {
    /// The writer.
    writer: W,
    /// How many writes failed.
    faults: u64,
}

impl<W: Write + Drop> Model for StdSink<W> {
    ghost use Rattle.byte_streams.specs.Standard.{WriteStream};

    ghost Value = { WriteStream };

    ghost view = { λ s. record { bytes = W.contents s.writer; faults = s.faults } };
}

impl<W: Write + Drop> StdSink<W> {
    /// A sink that has not failed.
    pub fn new(writer: W) -> Self
        ensures { result ≡ record { bytes = W.contents writer; faults = 0 } }
    {
        StdSink { writer, faults: 0 }
    }

    /// The writer.
    pub fn into_writer(self) -> W
        ensures { W.contents result ≡ self.bytes }
    {
        self.writer
    }
}

impl<W: Write + Drop> Sink for StdSink<W> {
    ghost holds = { λ s. s.bytes };

    ghost faults = { λ s. s.faults };

    fn write(&mut self, piece: &[u8]) -> WriteStep {
        match write_whole(&mut self.writer, piece) {
            Ok(()) => WriteStep::All,
            Err(SinkFault) => {
                self.faults = self.faults.saturating_add(1);
                WriteStep::Failed
            }
        }
    }
}

// Writes a piece, and flushes. Where either fails, a prefix of the piece is written.
fn write_whole<W: Write>(writer: &mut W, piece: &[u8]) -> Result<(), SinkFault>
    ensures { Prints (W.contents writer.old) (W.contents writer.new) piece.now result }
{
    let mut at = 0;
    for _ in 0..u64::MAX {
        if at == piece.len() {
            return flush(writer);
        }
        at += write_some(writer, piece.split_at(at).1)?;
    }
    Err(SinkFault)
}

fn flush<W: Write>(writer: &mut W) -> Result<(), SinkFault>
    ensures { Keeps (W.contents writer.old) (W.contents writer.new) }
{
    match writer.flush() {
        Ok(()) => Ok(()),
        Err(_) => Err(SinkFault),
    }
}

// Writes some bytes from the front of a piece, or none where the writer was interrupted.
fn write_some<W: Write>(writer: &mut W, piece: &[u8]) -> Result<usize, SinkFault>
    ensures { MatchResult result
        (λ n. (n ≤ length piece.now)
        × Appends (W.contents writer.old) (W.contents writer.new) (take n piece.now))
        (λ _. Keeps (W.contents writer.old) (W.contents writer.new)) }
{
    match writer.write(piece) {
        Ok(0) => Err(SinkFault),
        Ok(n) => Ok(n),
        Err(e) if e.kind() == ErrorKind::Interrupted => Ok(0),
        Err(_) => Err(SinkFault),
    }
}
