// Pipes, and the requests for them.
ghost use Rattle.std.specs.Prelude.{◌≡◌, ◌≤◌, ◌++◌, IfOk, drop, length};
ghost use Rattle.kernel_model.specs.KernelRecord.Pipes.{ArePipes, most_pipes, no_pipes};
ghost use Rattle.resident_tasks.specs.PipeHandler.PipeCalls.{after_close, after_open, after_read, after_restore, after_write, can_restore, pipe_numbered};

use crate::pipe_handler::places::{can_restore, handle_at, open_place, place_for};
use crate::pipe_handler::slots::{Slot, copy_slots};
use crate::pipe_handler::views::PipeView;
use byte_streams::WantMemory;
use ram_disc::Name;
use ram_disc::codes::{BAD_BUFFER, IN_USE, NOT_OPEN};
use std::alloc::Global;
use std::marker::Model;

const NO_BYTES: u32 = 70;

const NO_SUCH_END: u32 = 71;

const NO_PLACE: u32 = 72;

const FULL: u32 = 73;

/// The most pipes.
const PIPES: usize = 8;

/// At most eight pipes. Pipe k, from 1, has the handles 2k - 1, with which it is read, and 2k, with which it is written.
#[derive(Drop)]
pub struct Pipes {
    /// A slot for each place, from 0.
    slots: Vec<Slot>,
}

impl Model for Pipes {
    ghost use Rattle.std.specs.Prelude.{List, Option};
    ghost use Rattle.kernel_model.specs.KernelRecord.Kernel.{Pipe};
    ghost use Rattle.resident_tasks.specs.PipeHandler.Slots.{AreSlots, pipes_in};

    ghost Value = { List (Option Pipe) };

    ghost view = { λ p. pipes_in p.slots.items };

    ghost invariant = { λ p. AreSlots p.slots.items };
}

impl Pipes {
    /// No pipes, and the memory for eight. `WantMemory` comes only where memory could not be had.
    pub fn new(alloc: Global) -> Result<Pipes, WantMemory>
        ensures { IfOk result (λ ps. ps ≡ no_pipes) }
    {
        let mut slots = Vec::new(alloc);
        for _i in 0..PIPES {
            let slot = Slot::new(alloc)?;
            if slots.push(slot).is_err() {
                return Err(WantMemory);
            }
        }
        Ok(Pipes { slots })
    }

    /// Opens an end of the pipe of this name: 0, the one that reads, or 1, the one that writes. The pipe is made where there is none.
    /// The answer is the handle of that end. Refused for another end (71), where that end is open (47), or where the pipe is a new one
    /// and eight are there (72).
    pub fn open(&mut self, name: &Name, end: u32) -> Result<u32, u32>
        ensures answer { result ≡ (after_open self.old name.now end).answer }
        ensures pipes { self.new ≡ (after_open self.old name.now end).pipes }
    {
        if end > 1 {
            return Err(NO_SUCH_END);
        }
        let writes = end == 1;
        let Some(place) = place_for(self.slots.as_slice(), name.bytes()) else {
            return Err(NO_PLACE);
        };
        if self.slots[place].is_open(writes) {
            return Err(IN_USE);
        }
        self.slots[place].open(name, writes);
        Ok(handle_at(place, writes))
    }

    /// Gives the next bytes of a pipe, as many as there is room for, and how many they are. At its end there are none. `buffer` says
    /// whether the reader's buffer may be written. Refused where the handle names no open end that reads (46), the buffer may not be
    /// written (48), or the pipe is empty and its writing end is open or never was (70).
    pub fn read(&mut self, handle: u32, buffer: bool, into: &mut [u8]) -> Result<u32, u32>
        ensures answer { result ≡ (after_read self.old handle buffer (length into.old)).answer }
        ensures pipes { self.new ≡ (after_read self.old handle buffer (length into.old)).pipes }
        ensures bytes { into.new ≡ (after_read self.old handle buffer (length into.old)).bytes
            ++ drop (length (after_read self.old handle buffer (length into.old)).bytes) into.old }
    {
        let Some(place) = open_place(self.slots.as_slice(), handle, false) else {
            return Err(NOT_OPEN);
        };
        if !buffer {
            return Err(BAD_BUFFER);
        }
        if !self.slots[place].has_more() {
            return Err(NO_BYTES);
        }
        Ok(self.slots[place].read(into))
    }

    /// Takes bytes into a pipe, as many as there is room for. The answer is how many these are. `buffer` says whether the writer's
    /// buffer may be read. Refused where the handle names no open end that writes (46), the buffer may not be read (48), or the pipe
    /// holds 1,024 bytes (73).
    pub fn write(&mut self, handle: u32, buffer: bool, bytes: &[u8]) -> Result<u32, u32>
        ensures answer { result ≡ (after_write self.old handle buffer bytes.now).answer }
        ensures pipes { self.new ≡ (after_write self.old handle buffer bytes.now).pipes }
    {
        let Some(place) = open_place(self.slots.as_slice(), handle, true) else {
            return Err(NOT_OPEN);
        };
        if !buffer {
            return Err(BAD_BUFFER);
        }
        if !self.slots[place].has_room() {
            return Err(FULL);
        }
        Ok(self.slots[place].write(bytes))
    }

    /// Closes an end. Where the other one is not open the pipe is there no more, and its bytes are dropped. Refused where the handle
    /// names no open end (46).
    pub fn close(&mut self, handle: u32) -> Result<u32, u32>
        ensures answer { result ≡ (after_close self.old handle).answer }
        ensures pipes { self.new ≡ (after_close self.old handle).pipes }
    {
        let writes = handle % 2 == 0;
        let Some(place) = open_place(self.slots.as_slice(), handle, writes) else {
            return Err(NOT_OPEN);
        };
        self.slots[place].close(writes);
        Ok(0)
    }

    /// Pipe k, from 1, lent, or `None` exactly where it is not there.
    pub fn pipe(&self, k: u32) -> Option<PipeView<'_>>
        ensures value { result ≡ pipe_numbered self.now k }
        ensures valid { ArePipes self.now }
    {
        let slots = self.slots.as_slice();
        if k == 0 {
            return None;
        }
        let slot = slots.get(k as usize - 1)?;
        if !slot.is_there() {
            return None;
        }
        Some(PipeView::new(slot))
    }

    /// Makes these pipes what the others are. It takes no memory.
    pub fn copy_from(&mut self, other: &Pipes)
        ensures { self.new ≡ other.now }
    {
        copy_slots(self.slots.as_mut_slice(), other.slots.as_slice());
    }

    /// Makes pipe k, from 1, one with these ends, as `PipeView::ends` told them, this name and these bytes. The answer is false, and
    /// nothing changes, exactly where k is not from 1 to 8 or is there, the name is another pipe's, no end is open, the writing end is
    /// open and never was, or there are more than 1,024 bytes.
    pub fn restore(&mut self, k: u32, ends: (bool, bool, bool), name: &Name, bytes: &[u8]) -> bool
        ensures answer { result ≡ can_restore self.old k ends name.now bytes.now }
        ensures pipes { self.new ≡ after_restore self.old k ends name.now bytes.now }
    {
        if !can_restore(self.slots.as_slice(), k, ends, name.bytes(), bytes) {
            return false;
        }
        self.slots[k as usize - 1].set(ends, name, bytes);
        true
    }
}
