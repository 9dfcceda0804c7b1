// The slots in which pipes are kept.
ghost use Rattle.std.specs.Prelude.{◌≡◌, ◌≤◌, ◌-◌, ◌||◌, ◌++◌, [], None, Some, IfOk, length, drop, nat_lt, take, false, true};
ghost use Rattle.std.specs.List.{All};
ghost use Rattle.std.specs.Option.{is_none, is_some};
ghost use Rattle.circular_buffer.specs.Buffer.{buffer};
ghost use Rattle.kernel_model.specs.KernelRecord.Pipes.{most_held};
ghost use Rattle.resident_tasks.specs.PipeHandler.Ends.{is_named, is_open, opened, without_end};
ghost use Rattle.resident_tasks.specs.PipeHandler.PipeCalls.{has_more};
ghost use Rattle.resident_tasks.specs.PipeHandler.Slots.{IsRing, pipe_in};

use byte_streams::WantMemory;
use circular_buffer::HeapCircularBuffer;
use kernel_model::numbers::MOST_HELD;
use ram_disc::Name;
use std::alloc::Global;

/// A pipe, which is there where one of its ends is open: its name, the bytes that were written and not read, and whether its reading
/// end is open, its writing end is, and that ever was.
#[derive(Drop)]
pub(crate) struct Slot {
    /// The name of the pipe.
    pub(crate) name: Name,
    /// The bytes that were written and not read.
    pub(crate) held: HeapCircularBuffer<u8>,
    /// The end that reads is open.
    pub(crate) reading: bool,
    /// The end that writes is open.
    pub(crate) writing: bool,
    /// The end that writes was open once.
    pub(crate) written: bool,
}

impl Slot {
    /// A slot with no pipe.
    pub(crate) fn new(alloc: Global) -> Result<Slot, WantMemory>
        ensures ring { IfOk result (λ s. IsRing s.held) }
        ensures empty { IfOk result (λ s. pipe_in s ≡ None) }
    {
        let Ok(held) = HeapCircularBuffer::with_capacity(alloc, MOST_HELD) else {
            return Err(WantMemory);
        };
        Ok(Slot {
            name: Name::default(),
            held,
            reading: false,
            writing: false,
            written: false,
        })
    }

    /// Whether the pipe is there.
    pub(crate) fn is_there(&self) -> bool
        ensures { result ≡ is_some (pipe_in self.now) }
    {
        self.reading || self.writing
    }

    /// Whether the writing end is open, or the reading one.
    pub(crate) fn is_open(&self, writes: bool) -> bool
        ensures { result ≡ is_open writes (pipe_in self.now) }
    {
        if writes { self.writing } else { self.reading }
    }

    /// Whether the pipe is there, and has this name.
    pub(crate) fn is_named(&self, name: &[u8]) -> bool
        ensures { result ≡ is_named name.now (pipe_in self.now) }
    {
        if !self.is_there() {
            return false;
        }
        self.name.bytes() == name
    }

    /// Opens an end, of a new pipe of this name where there is none.
    pub(crate) fn open(&mut self, name: &Name, writes: bool)
        ensures pipe { pipe_in self.new ≡ Some (opened name.now writes (pipe_in self.old)) }
        ensures ring { IsRing self.old.held → IsRing self.new.held }
    {
        if !self.is_there() {
            self.begin(name);
        }
        if writes {
            self.writing = true;
            self.written = true;
        } else {
            self.reading = true;
        }
    }

    // Makes it a pipe of this name that holds nothing and was never written.
    fn begin(&mut self, name: &Name)
        ensures { self.new ≡ record self.old {
          name = name.now;
          held = buffer [] self.old.held.capacity;
          written = false;
        } }
    {
        self.name = name.copy();
        self.held.clear();
        self.written = false;
    }

    /// Closes an end.
    pub(crate) fn close(&mut self, writes: bool)
        ensures pipe { pipe_in self.new ≡ without_end writes (pipe_in self.old) }
        ensures ring { self.new.held ≡ self.old.held }
    {
        if writes {
            self.writing = false;
        } else {
            self.reading = false;
        }
    }

    /// Whether the pipe holds bytes, or has come to its end. It is there.
    pub(crate) fn has_more(&self) -> bool
        requires { is_none (pipe_in self.now) ≡ false }
        ensures { result ≡ has_more (pipe_in self.now) }
    {
        if !self.held.is_empty() {
            return true;
        }
        self.written && !self.writing
    }

    /// Whether the pipe holds less than it may.
    pub(crate) fn has_room(&self) -> bool
        ensures { result ≡ nat_lt (length self.now.held.items) most_held }
    {
        self.held.len() < MOST_HELD
    }

    /// Gives the first bytes, as many as there is room for, and how many they are.
    pub(crate) fn read(&mut self, into: &mut [u8]) -> u32
        requires { IsRing self.old.held }
        ensures count { result ≡ length (take (length into.old) self.old.held.items) }
        ensures bytes { into.new ≡ take (length into.old) self.old.held.items
            ++ drop result into.old }
        ensures slot { self.new ≡ record self.old {
          held = buffer (drop (length into.old) self.old.held.items) self.old.held.capacity;
        } }
    {
        self.held.read_into(into) as u32
    }

    /// Takes the first bytes, as many as it has room for. The answer is how many they are.
    pub(crate) fn write(&mut self, bytes: &[u8]) -> u32
        requires { IsRing self.old.held }
        ensures count { result ≡ length (take (most_held - length self.old.held.items) bytes.now) }
        ensures slot { self.new ≡ record self.old {
          held = buffer
              (self.old.held.items ++ take (most_held - length self.old.held.items) bytes.now)
              self.old.held.capacity;
        } }
    {
        self.held.fill_from_slice(bytes) as u32
    }

    /// Makes it what the other is.
    pub(crate) fn copy_from(&mut self, other: &Slot)
        requires old { IsRing self.old.held }
        requires other { IsRing other.now.held }
        ensures { self.new ≡ other.now }
    {
        self.name = other.name.copy();
        self.reading = other.reading;
        self.writing = other.writing;
        self.written = other.written;
        copy_ring(&mut self.held, &other.held);
    }

    /// Makes it a pipe with these ends, this name and these bytes.
    pub(crate) fn set(&mut self, ends: (bool, bool, bool), name: &Name, bytes: &[u8])
        requires ring { IsRing self.old.held }
        requires bytes { length bytes.now ≤ most_held }
        ensures { self.new ≡ record {
          name = name.now;
          held = buffer bytes.now self.old.held.capacity;
          reading = ends.0;
          writing = ends.1;
          written = ends.2;
        } }
    {
        self.begin(name);
        self.held.fill_from_slice(bytes);
        self.reading = ends.0;
        self.writing = ends.1;
        self.written = ends.2;
    }
}

fn copy_ring(ring: &mut HeapCircularBuffer<u8>, other: &HeapCircularBuffer<u8>)
    requires old { IsRing ring.old }
    requires other { IsRing other.now }
    ensures { ring.new ≡ other.now }
{
    ring.clear();
    let (front, back) = other.as_slices();
    ring.extend_from_slice(front);
    ring.extend_from_slice(back);
}

/// Makes each slot what the other one in its place is.
pub(crate) fn copy_slots(slots: &mut [Slot], others: &[Slot])
    requires size { length slots.old ≡ length others.now }
    requires rings { All (λ s. IsRing s.held) slots.old }
    requires others { All (λ s. IsRing s.held) others.now }
    ensures { slots.new ≡ others.now }
{
    for i in 0..slots.len() {
        slots[i].copy_from(&others[i]);
    }
}
