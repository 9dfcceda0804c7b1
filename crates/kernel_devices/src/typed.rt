// The bytes that were typed, and that no packet has taken yet.
ghost use Rattle.std.specs.Prelude.{◌≡◌, ◌+◌, ◌<◌, ◌≤◌, ◌↔◌, [], ◌++◌, IfOk, IsTrue, drop, length, slice_get};
ghost use Rattle.kernel_model.specs.KernelRecord.HoldsLists.{HoldsLists};
ghost use Rattle.kernel_model.specs.KernelRecord.Lists.{Lists};
ghost use Rattle.kernel_devices.specs.Keys.{left_typed, met};
ghost use Rattle.kernel_calls.specs.PacketCalls.Returned.{IsServed};
ghost use Rattle.kernel_devices.specs.Typed.{with_typed};
ghost use Rattle.kernel_model.specs.KernelRecord.LoggedEvents.{LogsAll};

use arrayvec::ArrayVec;
use byte_streams::WantMemory;
use circular_buffer::HeapCircularBuffer;
use kernel_calls::{Device, return_first};
use kernel_lists::{EventLog, RootField, root};
use kernel_model::numbers::MOST_AHEAD;
use std::alloc::Global;
use std::marker::Model;
use word_store::Store;

/// At most 128 bytes, seen as their list, the first that was typed first.
#[derive(Drop)]
pub struct Tty {
    /// The bytes that were typed and not read.
    bytes: HeapCircularBuffer<u8>,
}

impl Model for Tty {
    ghost use Rattle.std.specs.Prelude.{ℕ, List};
    ghost use Rattle.kernel_devices.specs.Typed.{IsTypeAhead};

    ghost Value = { List ℕ };

    ghost view = { λ t. t.bytes.items };

    ghost invariant = { λ t. IsTypeAhead t.bytes };
}

impl Tty {
    /// No bytes. `WantMemory` comes only where memory could not be had.
    pub fn new(alloc: Global) -> Result<Tty, WantMemory>
        ensures { IfOk result (λ t. t ≡ []) }
    {
        match HeapCircularBuffer::with_capacity(alloc, MOST_AHEAD) {
            Ok(bytes) => Ok(Tty { bytes }),
            Err(_) => Err(WantMemory),
        }
    }

    /// Enters a byte as the last one. The answer is false exactly where 128 bytes are held; then it is dropped.
    pub fn enter(&mut self, byte: u8) -> bool
        ensures room { IsTrue result ↔ (length self.old < 128) }
        ensures bytes { self.new ≡ with_typed byte self.old }
    {
        self.bytes.try_push_back(byte).is_ok()
    }

    /// The byte in place k, from 0, or `None` exactly where no more than k bytes are held.
    pub fn at(&self, k: u32) -> Option<u8>
        ensures { result ≡ slice_get self.now k }
    {
        self.bytes.get(k as usize).copied()
    }

    /// The bytes that are held, as a list of their own. It takes no memory.
    pub fn bytes(&self) -> ArrayVec<u8, 128>
        ensures { result.items ≡ self.now }
    {
        let mut bytes = ArrayVec::new();
        let (front, back) = self.bytes.as_slices();
        append(&mut bytes, front);
        append(&mut bytes, back);
        bytes
    }

    /// Holds these bytes, in place of those that it held.
    pub fn set(&mut self, bytes: &[u8])
        requires { length bytes.now ≤ 128 }
        ensures { self.new ≡ bytes.now }
    {
        self.bytes.clear();
        self.bytes.extend_from_slice(bytes);
    }

    /// Lets the first byte meet the first packet that waits at the keyboard, where there are both: the packet is returned from -2
    /// with the byte as its first result, and 0 as its second.
    pub fn meet<L: EventLog>(&mut self, store: &mut Store, log: &mut L)
        requires { (l : Lists) × HoldsLists store.old l }
        ensures lists { (l : Lists) → HoldsLists store.old l
            → IsServed store.old store.new l (met self.old l) }
        ensures left { (l : Lists) → HoldsLists store.old l
            → self.new ≡ left_typed self.old l.keyboard }
        ensures notes { (l : Lists) → HoldsLists store.old l
            → LogsAll L.EventLog log.old log.new (met self.old l).events }
    {
        if root(store, RootField::KeyQueue) == 0 {
            return;
        }
        let Some(byte) = self.bytes.pop_front() else {
            return;
        };
        return_first(store, Device::Keyboard, u32::from(byte), log);
    }

    /// Drops all bytes.
    pub fn clear(&mut self)
        ensures { self.new ≡ [] }
    {
        self.bytes.clear();
    }
}

// The others come after the bytes that are there.
fn append(bytes: &mut ArrayVec<u8, 128>, others: &[u8])
    requires { length bytes.old.items + length others.now ≤ 128 }
    ensures { bytes.new.items ≡ bytes.old.items ++ others.now }
{
    match bytes.try_extend_from_slice(others) {
        Ok(()) => {}
        Err(_) => unreachable!(),
    }
}
