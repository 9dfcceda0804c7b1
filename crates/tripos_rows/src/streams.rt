// Reading and writing in memory, and over std's readers and writers.
use crate::same::same;
use byte_streams::{
    MemorySink, MemorySource, Piece, ReadEnd, ReadStep, Sink, SinkFault, Source, StdSink,
    StdSource, WriteStep, read_all, write_pieces,
};
use std::io;
use std::io::{ErrorKind, Read, Write};
use std::test::Fail;

#[test]
fn reads_up_to_a_limit(rt: HostRuntime) -> Result<(), Fail> {
    let text = [7u8; 5000];
    for (limit, fails, wanted) in [
        (5000, [0, 0], Ok(5000)),
        (4999, [0, 0], Err(ReadEnd::TooLong)),
        (5000, [2, 0], Err(ReadEnd::Fault)),
        (5000, [0, 3], Err(ReadEnd::Fault)),
    ] {
        let mut source = MemorySource::new(rt.alloc(), &text, &fails).map_err(|_| "memory")?;
        let read = read_all(rt.alloc(), &mut source, limit).map(|bytes| bytes.len());
        same(&rt, (limit, read), (limit, wanted));
    }
    Ok(())
}

// Pieces go to the sink in one call, and a text that is too long for that in one of its own.
#[test]
fn prints_pieces(rt: HostRuntime) -> Result<(), Fail> {
    let long = [b'-'; 8200];
    let pieces = [
        Piece::Text(b"a "),
        Piece::Decimal(u64::MAX),
        Piece::Text(b" "),
        Piece::Signed(-2147483648),
        Piece::Text(b" "),
        Piece::Word(0x00ab_cdef),
        Piece::Text(&long),
    ];
    let front = b"a 18446744073709551615 -2147483648 00abcdef".as_slice();
    for (count, room, fail, wanted, bytes) in [
        (6, 43, 2, Ok(()), 43),
        (6, 43, 1, Err(SinkFault), 0),
        (6, 42, 0, Err(SinkFault), 0),
        (7, 8243, 4, Ok(()), 8243),
        (7, 8243, 2, Err(SinkFault), 43),
    ] {
        let mut sink = MemorySink::new(rt.alloc(), room, &[fail]).map_err(|_| "memory")?;
        same(
            &rt,
            write_pieces(&mut sink, pieces.split_at(count).0),
            wanted,
        );
        same(&rt, sink.bytes().len(), bytes);
        assert!(rt; bytes == 0 || sink.bytes().starts_with(front));
    }
    Ok(())
}

// A reader that gives one byte, and then fails.
#[derive(Drop)]
struct CutReader {
    /// How often it was asked.
    calls: u8,
}

impl Read for CutReader {
    fn read(&mut self, into: &mut [u8]) -> io::Result<usize> {
        if self.calls > 0 || into.is_empty() {
            return Err(io::Error::from(ErrorKind::Other));
        }
        self.calls = 1;
        into[0] = b'x';
        Ok(1)
    }
}

#[test]
fn a_reader_that_fails_is_not_at_its_end(rt: HostRuntime) -> Result<(), Fail> {
    let mut source = StdSource::new(CutReader { calls: 0 });
    let read = read_all(rt.alloc(), &mut source, 10).map(|bytes| bytes.len());
    same(&rt, read, Err(ReadEnd::Fault));
    let mut source = StdSource::new(b"xyz".as_slice());
    let mut piece = [0u8; 2];
    for wanted in [ReadStep::Got(2), ReadStep::Got(1), ReadStep::End] {
        same(&rt, source.read(&mut piece), wanted);
    }
    same(&rt, piece, *b"zy");
    Ok(())
}

// A writer that is interrupted at its first call, takes two bytes a call, and flushes that many times.
#[derive(Drop)]
struct SlowWriter {
    /// How often it was asked.
    calls: u8,
    /// How many bytes it has taken.
    taken: usize,
    /// How often it was flushed.
    flushes: u8,
}

impl Write for SlowWriter {
    fn write(&mut self, piece: &[u8]) -> io::Result<usize> {
        if self.calls == 0 {
            self.calls = 1;
            return Err(io::Error::from(ErrorKind::Interrupted));
        }
        let n = piece.len().min(2);
        self.taken = self.taken.saturating_add(n);
        Ok(n)
    }

    fn flush(&mut self) -> io::Result<()> {
        if self.flushes == 0 {
            return Err(io::Error::from(ErrorKind::Other));
        }
        self.flushes -= 1;
        Ok(())
    }
}

#[test]
fn a_write_is_whole_and_flushed(rt: HostRuntime) -> Result<(), Fail> {
    let mut sink = StdSink::new(SlowWriter {
        calls: 0,
        taken: 0,
        flushes: 2,
    });
    for (piece, wanted) in [
        (b"abc".as_slice(), WriteStep::All),
        (b"".as_slice(), WriteStep::All),
        // The third flush fails.
        (b"de".as_slice(), WriteStep::Failed),
    ] {
        same(&rt, (piece, sink.write(piece)), (piece, wanted));
    }
    same(&rt, sink.into_writer().taken, 5);
    let mut kept = [0u8; 2];
    let mut sink = StdSink::new(kept.as_mut_slice());
    same(&rt, sink.write(b"o"), WriteStep::All);
    same(&rt, sink.write(b"kk"), WriteStep::Failed);
    Ok(())
}

// A writer that takes nothing, however often it is asked, and counts how often that is.
#[derive(Drop)]
struct FullWriter {
    /// How often it was asked.
    calls: u64,
}

impl Write for FullWriter {
    fn write(&mut self, _piece: &[u8]) -> io::Result<usize> {
        self.calls = self.calls.saturating_add(1);
        Ok(0)
    }

    fn flush(&mut self) -> io::Result<()> {
        Ok(())
    }
}

#[test]
fn a_writer_that_takes_nothing_is_a_fault(rt: HostRuntime) {
    let mut sink = StdSink::new(FullWriter { calls: 0 });
    same(&rt, sink.write(b"a"), WriteStep::Failed);
    same(&rt, sink.write(b"a"), WriteStep::Failed);
    same(&rt, sink.into_writer().calls, 2);
}
