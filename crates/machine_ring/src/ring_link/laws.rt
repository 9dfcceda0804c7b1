// The laws of a ring: of the protocol, whatever happens on the link, and of its text.
ghost use Rattle.std.specs.Prelude.{◌≡◌, ◌↔◌, ◌⊎◌, ◌+◌, ◌≤◌, ℕ, List, Ok, drop, length};
ghost use Rattle.machine_ring.specs.RingLink.FirstError.{EndsEarly, IsFirstError, IsRefused};
ghost use Rattle.machine_ring.specs.RingLink.RingForm.{IsRing};
ghost use Rattle.machine_ring.specs.RingLink.RingOfText.{ring_of};
ghost use Rattle.machine_ring.specs.RingLink.Transfers.{Event, IsPrefix, transfer_after};
ghost use Rattle.machine_ring.specs.declared.ring_link.inputs.RingInput.{RingInput};

use crate::ring_link::inputs::{LEFT_LINE, MOST_LETTERS, MOST_ROUNDS, MOST_WAIT};

/// The line of `LEFT`; and the most rounds, the longest wait and the most letters that the lines before it may have.
pub fn number_law()
    ensures line { LEFT_LINE ≡ 4 }
    ensures most { (MOST_ROUNDS ≡ 4000000000) × (MOST_WAIT ≡ 1000000) × (MOST_LETTERS ≡ 10000) }
{}

/// After every list of events the delivered bytes are a prefix of those that were offered, as many as the receiver
/// counts. No more are acknowledged than were delivered, and of those delivered one at most is not acknowledged. What
/// waits is what was offered and is not acknowledged.
///
/// An event is that a byte is offered, that the sender has a turn, that data comes, with room for it or without, or
/// that an acknowledgement comes. What was once sent may come at any time, as often as it may, or never.
/// `Sender::turn`, `Sender::acknowledge` and `Receiver::arrive` do what these events do.
pub fn ring_law()
    ensures prefix { (events : List Event) → let t = transfer_after events in
        IsPrefix t.delivered t.offered }
    ensures count { (events : List Event) → let t = transfer_after events in
        length t.delivered ≡ t.received }
    ensures acknowledged { (events : List Event) → let t = transfer_after events in
        t.sender.acknowledged ≤ t.received }
    ensures ahead { (events : List Event) → let t = transfer_after events in
        t.received ≤ t.sender.acknowledged + 1 }
    ensures waiting { (events : List Event) → let t = transfer_after events in
        t.waiting ≡ drop t.sender.acknowledged t.offered }
{}

/// What is read from a text is the ring whose text it is, and every text of a ring is read: so a text has at most one ring.
pub fn text_law()
    ensures sound { (text : List ℕ) (ring : RingInput) → ring_of text ≡ Ok ring → IsRing text ring }
    ensures complete { (text : List ℕ) (ring : RingInput) → IsRing text ring → ring_of text ≡ Ok ring }
{}

/// A text is refused at its first line in error: some ring's lines begin with the lines before it, and none with
/// these and it. The code is 1 or 2 exactly there, and 3 exactly where all lines begin a ring's lines, and are none.
pub fn refusal_law()
    ensures line { (text : List ℕ) (n : ℕ) →
        (IsRefused text n 1 ⊎ IsRefused text n 2) ↔ IsFirstError text n }
    ensures end { (text : List ℕ) (n : ℕ) → IsRefused text n 3 ↔ EndsEarly text n }
    ensures codes { (text : List ℕ) (n code : ℕ) →
        IsRefused text n code → (1 ≤ code) × (code ≤ 3) }
{}
