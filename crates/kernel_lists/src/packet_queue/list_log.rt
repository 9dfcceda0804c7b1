// A log that keeps its events.
ghost use Rattle.std.specs.Prelude.{◌≡◌, ◌↔◌, [], false, length, IfOk, IsTrue, Some};
ghost use Rattle.kernel_lists.specs.PacketQueue.Log.{Notes};

use crate::packet_queue::{EventLog, KernelEvent};
use byte_streams::WantMemory;
use std::alloc::Global;
use std::marker::Model;

/// A log that keeps its events in memory, for which it has room from the start. It fails at the first note past its room.
#[derive(Drop)]
pub struct ListLog {
    /// The events, in their order.
    events: Vec<KernelEvent>,
    /// How many events it keeps at most.
    room: u32,
    /// An event had no room.
    failed: bool,
}

impl Model for ListLog {
    ghost use Rattle.std.specs.Prelude.{◌≡◌, ◌≤◌, IsTrue, vec_len, vec_capacity};
    ghost use Rattle.kernel_lists.specs.PacketQueue.KeptEvents.{KeptEvents};

    ghost Value = { KeptEvents };

    ghost view = { λ s. record { events = s.events.items; room = s.room; failed = s.failed } };

    ghost invariant = { λ s. (vec_len s.events ≤ s.room) × (s.room ≤ vec_capacity s.events) × (IsTrue s.failed → vec_len s.events ≡ s.room) };
}

impl ListLog {
    /// A log with no events yet, and room for that many.
    pub fn make(alloc: Global, room: u32) -> Result<ListLog, WantMemory>
        ensures { IfOk result (λ log. log ≡ record { events = []; room = room; failed = false }) }
    {
        match Vec::with_capacity(alloc, room as usize) {
            Ok(events) => Ok(ListLog {
                events,
                room,
                failed: false,
            }),
            Err(_) => Err(WantMemory),
        }
    }

    /// The events that it keeps, lent.
    pub fn events(&self) -> &[KernelEvent]
        ensures { result.now ≡ self.now.events }
    {
        self.events.as_slice()
    }
}

impl EventLog for ListLog {
    ghost noted = { λ log. Some log.events };

    ghost has_failed = { λ log. log.failed };

    fn note(&mut self, e: KernelEvent)
        ensures notes { Notes (Some self.old.events)
            (Some self.new.events) self.old.failed self.new.failed e }
        ensures room { self.new.room ≡ self.old.room }
        ensures fails { IsTrue self.new.failed ↔ (length self.old.events ≡ self.old.room) }
    {
        if self.events.len() == self.room as usize {
            self.failed = true;
            return;
        }
        if self.events.push(e).is_err() {
            unreachable!();
        }
    }

    fn failed(&self) -> bool {
        self.failed
    }
}
