// Logs of events.
ghost use Rattle.std.specs.Prelude.{◌≡◌, Bool, List, None, Option, false};
ghost use Rattle.kernel_lists.specs.PacketQueue.Log.{Notes};
ghost use Rattle.kernel_lists.specs.declared.packet_queue.events.KernelEvent.{KernelEvent};

use crate::packet_queue::KernelEvent;

/// A log of events. Once it has failed it notes no more.
pub trait EventLog {
    /// The events that were noted, where the log tells them.
    ghost noted: { Self → Option (List KernelEvent) };

    /// Whether the log has failed.
    ghost has_failed: { Self → Bool };

    /// Notes the event.
    fn note(&mut self, e: KernelEvent)
        ensures { Notes (noted self.old) (noted self.new) (has_failed self.old)
            (has_failed self.new) e };

    /// Whether the log has failed.
    fn failed(&self) -> bool
        ensures { result ≡ has_failed self.now };
}

/// Keeps no event, and never fails.
#[derive(Clone, Copy)]
pub struct NoLog;

impl EventLog for NoLog {
    ghost noted = { λ _. None };

    ghost has_failed = { λ _. false };

    fn note(&mut self, _e: KernelEvent) {}

    fn failed(&self) -> bool {
        false
    }
}
