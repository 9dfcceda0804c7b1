// The laws of a ring's rounds.
ghost use Rattle.std.specs.Prelude.{◌≡◌, ◌≢◌, ◌+◌, ◌≤◌, None, drop, length, List, ℕ};
ghost use Rattle.machine_ring.specs.RingLink.Transfers.{Event, IsPrefix, transfer_after};
ghost use Rattle.tripos_machine.specs.State.{State, stop_of};
ghost use Rattle.machine_ring.specs.Rings.{Ring, first_ring};
ghost use Rattle.machine_ring.specs.RoundEvents.{IsTransferOf};
ghost use Rattle.machine_ring.specs.Runs.{and_then, no_rounds, run};
ghost use Rattle.machine_ring.specs.declared.terms.Terms.{Terms};

use crate::flights::MOST_IN_FLIGHT;
use crate::terms::MOST_WAITING;

/// The most bytes that wait where the left machine takes a step, and the most packets that a direction holds.
pub fn number_law()
    ensures waiting { MOST_WAITING ≡ 8192 }
    ensures flights { MOST_IN_FLIGHT ≡ 64 }
{}

/// Whatever is set for a ring, and whatever its machines do, what happens between them in its rounds is a list of the events that may
/// happen between the two ends of a link. So the bytes that were typed at the right machine are a prefix of those that the left one
/// wrote to its console, as many as are counted; no more are acknowledged than were typed, and at most one of these is not. What waits
/// is what was written and is not acknowledged.
pub fn rounds_law()
    ensures events { (n : ℕ) (terms : Terms) (left right : State) → (events : List Event)
        × IsTransferOf (transfer_after events) (run n (first_ring terms left right)) }
    ensures prefix { (n : ℕ) (terms : Terms) (left right : State) →
        let x = run n (first_ring terms left right) in IsPrefix x.delivered x.offered }
    ensures count { (n : ℕ) (terms : Terms) (left right : State) →
        let x = run n (first_ring terms left right) in length x.delivered ≡ x.ring.link.received }
    ensures acknowledged { (n : ℕ) (terms : Terms) (left right : State) →
        let x = run n (first_ring terms left right) in
        x.ring.link.sender.acknowledged ≤ x.ring.link.received }
    ensures ahead { (n : ℕ) (terms : Terms) (left right : State) →
        let x = run n (first_ring terms left right) in
        x.ring.link.received ≤ x.ring.link.sender.acknowledged + 1 }
    ensures waiting { (n : ℕ) (terms : Terms) (left right : State) →
        let x = run n (first_ring terms left right) in
        x.ring.left.waiting ≡ drop x.ring.link.sender.acknowledged x.offered }
{}

/// Rounds may be cut in two, and none follows the one in which the right machine stops.
pub fn run_law()
    ensures more { (m n : ℕ) (r : Ring) → run (m + n) r ≡ and_then (run m r) (run n) }
    ensures stopped { (n : ℕ) (r : Ring) → stop_of r.right ≢ None → run n r ≡ no_rounds r }
{}
