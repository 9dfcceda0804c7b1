// A source and a sink in memory, which fail at the calls that they were told to.
ghost use Rattle.std.specs.Prelude.{◌≡◌, ◌+◌, ◌<◌, ◌↔◌, ◌⊎◌, [], length, Some, IfOk, IsTrue, Contains, min, take};
ghost use Rattle.byte_streams.specs.Faults.{one_more};
ghost use Rattle.byte_streams.specs.Memory.{after_read, after_write};
ghost use Rattle.byte_streams.specs.Read.{Reads, HasReadCause, ReadFailsWhere};
ghost use Rattle.byte_streams.specs.Write.{Writes, HasWriteCause, WriteFailsWhere};

use crate::{ReadStep, Sink, Source, WantMemory, WriteStep};
use std::alloc::Global;
use std::marker::Model;

/// A source of bytes in memory. Its calls are numbered from 1, and those in `fails` fail.
#[derive(Drop)]
pub struct MemorySource {
    /// All bytes.
    bytes: Vec<u8>,
    /// How many of them were read.
    at: usize,
    /// The calls that are to fail, by their numbers.
    fails: Vec<u32>,
    /// How many calls there were.
    calls: u64,
    /// How many of them failed.
    faults: u64,
}

impl Model for MemorySource {
    ghost use Rattle.std.specs.Prelude.{◌≤◌, drop, vec_len};
    ghost use Rattle.byte_streams.specs.Memory.{Input};

    ghost Value = { Input };

    ghost view = { λ s. record {
      left = drop s.at s.bytes.items;
      fails = s.fails.items;
      calls = s.calls;
      faults = s.faults;
    } };

    ghost invariant = { λ s. s.at ≤ vec_len s.bytes };
}

impl MemorySource {
    /// A source with these bytes left.
    pub fn new(alloc: Global, bytes: &[u8], fails: &[u32]) -> Result<MemorySource, WantMemory>
        ensures { IfOk result (λ s. s ≡ record {
          left = bytes.now;
          fails = fails.now;
          calls = 0;
          faults = 0;
        }) }
    {
        let Ok(bytes) = Vec::from_slice(alloc, bytes) else {
            return Err(WantMemory);
        };
        let Ok(fails) = Vec::from_slice(alloc, fails) else {
            return Err(WantMemory);
        };
        Ok(MemorySource {
            bytes,
            at: 0,
            fails,
            calls: 0,
            faults: 0,
        })
    }

    /// The bytes that are left, lent.
    pub fn left(&self) -> &[u8]
        ensures { result.now ≡ self.now.left }
    {
        &self.bytes[self.at..]
    }
}

impl Source for MemorySource {
    ghost left = { λ s. Some s.left };

    ghost calls = { λ s. s.calls };

    ghost faults = { λ s. s.faults };

    fn read(&mut self, into: &mut [u8]) -> ReadStep
        requires { 0 < length into.old }
        ensures bytes { Reads (Some self.old.left) (Some self.new.left) result into.new }
        ensures count { self.new.calls ≡ one_more self.old.calls }
        ensures cause { HasReadCause self.old.faults self.new.faults result }
        ensures state { self.new ≡ after_read self.old result }
        ensures fails { ReadFailsWhere result (Contains self.old.fails (self.old.calls + 1)) }
    {
        let fails = is_next(&self.fails, self.calls);
        self.calls = self.calls.saturating_add(1);
        if fails {
            self.faults = self.faults.saturating_add(1);
            return ReadStep::Failed;
        }
        let left = self.left();
        if left.is_empty() {
            return ReadStep::End;
        }
        let n = copy_front(left, into);
        self.at += n;
        ReadStep::Got(n)
    }
}

// Copies as many bytes as both have.
fn copy_front(from: &[u8], into: &mut [u8]) -> usize
    ensures count { result ≡ min (length from.now) (length into.old) }
    ensures front { take result into.new ≡ take result from.now }
{
    let n = from.len().min(into.len());
    into[..n].copy_from_slice(&from[..n]);
    n
}

// Whether the list names the call after these.
fn is_next(fails: &Vec<u32>, calls: u64) -> bool
    ensures { IsTrue result ↔ Contains fails.now.items (calls + 1) }
{
    calls < u32::MAX as u64 && fails.contains(&((calls + 1) as u32))
}

/// A sink that keeps its bytes, for which it has room from the start. Its calls are numbered from 1; those in `fails`
/// fail, and so does a write that would pass the room.
#[derive(Drop)]
pub struct MemorySink {
    /// The bytes that were written.
    bytes: Vec<u8>,
    /// How many bytes it keeps at most.
    room: usize,
    /// The calls that are to fail, by their numbers.
    fails: Vec<u32>,
    /// How many calls there were.
    calls: u64,
    /// How many of them failed.
    faults: u64,
}

impl Model for MemorySink {
    ghost use Rattle.std.specs.Prelude.{◌≤◌, vec_len, vec_capacity};
    ghost use Rattle.byte_streams.specs.Memory.{Kept};

    ghost Value = { Kept };

    ghost view = { λ s. record {
      bytes = s.bytes.items;
      room = s.room;
      fails = s.fails.items;
      calls = s.calls;
      faults = s.faults;
    } };

    ghost invariant = { λ s. (vec_len s.bytes ≤ s.room) × (s.room ≤ vec_capacity s.bytes) };
}

impl MemorySink {
    /// An empty sink with room for that many bytes.
    pub fn new(alloc: Global, room: usize, fails: &[u32]) -> Result<MemorySink, WantMemory>
        ensures { IfOk result (λ s. s ≡ record {
          bytes = [];
          room = room;
          fails = fails.now;
          calls = 0;
          faults = 0;
        }) }
    {
        let Ok(bytes) = Vec::with_capacity(alloc, room) else {
            return Err(WantMemory);
        };
        let Ok(fails) = Vec::from_slice(alloc, fails) else {
            return Err(WantMemory);
        };
        Ok(MemorySink {
            bytes,
            room,
            fails,
            calls: 0,
            faults: 0,
        })
    }

    /// The bytes that it holds, lent.
    pub fn bytes(&self) -> &[u8]
        ensures { result.now ≡ self.now.bytes }
    {
        self.bytes.as_slice()
    }
}

impl Sink for MemorySink {
    ghost holds = { λ s. Some s.bytes };

    ghost faults = { λ s. s.faults };

    fn write(&mut self, piece: &[u8]) -> WriteStep
        ensures bytes { Writes (Some self.old.bytes) (Some self.new.bytes) result piece.now }
        ensures cause { HasWriteCause self.old.faults self.new.faults result }
        ensures state { self.new ≡ after_write self.old piece.now result }
        ensures fails { WriteFailsWhere result (Contains self.old.fails (self.old.calls + 1)
            ⊎ (self.old.room < length self.old.bytes + length piece.now)) }
    {
        let fails = is_next(&self.fails, self.calls);
        self.calls = self.calls.saturating_add(1);
        if fails || self.room - self.bytes.len() < piece.len() {
            self.faults = self.faults.saturating_add(1);
            return WriteStep::Failed;
        }
        match self.bytes.extend_from_slice(piece) {
            Ok(()) => WriteStep::All,
            Err(_) => unreachable!(),
        }
    }
}
