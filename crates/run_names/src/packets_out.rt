// The packets that have not come back.
ghost use Rattle.std.specs.Prelude.{◌≡◌, ◌↔◌, ℕ, IsTrue, Some, None, IfOk, OnOk, if◌then◌else◌};
ghost use Rattle.run_names.specs.PacketsOut.{holder, is_report, out_of, way_after_send, way_without};

use crate::parties::Party;
use kernel_lists::{EventLog, KernelEvent};
use kernel_model::numbers::{CONSOLE, FAULT_PACKET, REPORTER};
use std::alloc::{AllocError, Global};
use std::collections::BTreeMap;
use std::collections::btree_map::Iter;

/// The way of a packet that has not come back.
#[derive(Clone, Copy)]
pub struct Sent {
    /// Who has it now, or has it to come.
    pub to: Party,
    /// Who sent it.
    pub from: Party,
}

/// The packets that have not come back, by their addresses: for each who has it, and who sent it. As a log of events it keeps itself up
/// to date, and has failed where memory could not be had.
#[derive(Drop)]
pub struct PacketsOut {
    /// The way of each.
    ways: BTreeMap<u32, Sent>,
    /// Whether memory could not be had for one.
    has_failed: bool,
}

impl PacketsOut {
    /// No packet is out.
    pub fn new(alloc: Global) -> PacketsOut
        ensures { (p : ℕ) → out_of result p ≡ None }
    {
        PacketsOut {
            ways: BTreeMap::new(alloc),
            has_failed: false,
        }
    }

    /// The way of a packet; `None` exactly where it is not out.
    pub fn way(&self, packet: u32) -> Option<Sent>
        ensures { result ≡ out_of self.now packet }
    {
        self.ways.get(&packet).copied()
    }

    /// The packets that are out with their ways, in the order of their addresses.
    pub fn ways(&self) -> Iter<'_, u32, Sent>
        ensures { result ≡ self.now.ways.entries }
    {
        self.ways.iter()
    }

    /// Whether a packet that comes from one to another comes back to who sent it.
    pub fn is_back(&self, to: Party, packet: u32, from: Party) -> bool
        ensures { IsTrue result ↔ (out_of self.now packet ≡ Some (record { to = from; from = to })) }
    {
        match self.way(packet) {
            Some(way) => way.to == from && way.from == to,
            None => false,
        }
    }

    /// A packet is not out any more.
    pub fn forget(&mut self, packet: u32)
        ensures { (p : ℕ) → out_of self.new p ≡ way_without self.old packet p }
    {
        self.ways.remove(&packet);
    }

    /// A packet is sent from one to another. The console's reads are the console's, and the packet with which faults are reported is
    /// nobody's.
    pub fn send(&mut self, to: Party, packet: u32, from: Party) -> Result<(), AllocError>
        ensures { (p : ℕ) → OnOk result (out_of self.new p ≡ way_after_send self.old to packet from p) }
    {
        if is_report(to, packet) {
            return Ok(());
        }
        let to = holder(to);
        self.ways.insert(packet, Sent { to, from })?;
        Ok(())
    }

    /// A packet comes into a queue: it comes back, and is out no more, or it is sent. The answer is whether it comes back.
    pub fn accept(&mut self, to: Party, packet: u32, from: Party) -> Result<bool, AllocError>
        ensures back { IfOk result (λ is_back. IsTrue is_back ↔ (out_of self.old packet ≡ Some (record { to = from; from = to }))) }
        ensures ways { (p : ℕ) → IfOk result (λ is_back. out_of self.new p
            ≡ (if is_back then way_without self.old packet p else way_after_send self.old to packet from p)) }
    {
        if self.is_back(to, packet, from) {
            self.forget(packet);
            return Ok(true);
        }
        self.send(to, packet, from)?;
        Ok(false)
    }
}

// Whether it is the packet with which faults are reported, on its way.
fn is_report(to: Party, packet: u32) -> bool
    ensures { result ≡ is_report to packet }
{
    match to {
        Party::Task(id) => id == REPORTER && packet == FAULT_PACKET,
        _ => false,
    }
}

/// Who has what comes into the queue of somebody: the console has its reads.
pub fn holder(to: Party) -> Party
    ensures { result ≡ holder to }
{
    match to {
        Party::ConsoleReads => Party::Task(CONSOLE),
        other => other,
    }
}

impl EventLog for PacketsOut {
    ghost use Rattle.std.specs.Prelude.{None};

    ghost noted = { λ _. None };

    ghost has_failed = { λ log. log.has_failed };

    fn note(&mut self, e: KernelEvent) {
        if self.has_failed {
            return;
        }
        match e {
            KernelEvent::Accepted {
                queue,
                packet,
                sender,
            } => {
                let to = Party::of_number(queue);
                let from = Party::of_number(sender);
                self.has_failed = self.accept(to, packet, from).is_err();
            }
            KernelEvent::Dequeued { packet, .. } => self.forget(packet),
            KernelEvent::Taken { .. } | KernelEvent::Runs { .. } => {}
        }
    }

    fn failed(&self) -> bool {
        self.has_failed
    }
}
