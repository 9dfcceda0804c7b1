// The end of a link that sends: it sends a byte again until that is acknowledged, and only then the next.
ghost use Rattle.std.specs.Prelude.{◌≡◌, ◌<◌};
ghost use Rattle.machine_ring.specs.RingLink.Senders.{is_new_count, new_sender, sender_after_count, sender_after_sending, sender_after_turn, sent_in_turn};

use std::marker::Model;

/// The end that sends. It is seen as what it knows: how many bytes were acknowledged, which byte is outstanding, and
/// for how many turns that one was not sent.
#[derive(Drop)]
pub struct Sender {
    // How many bytes were acknowledged.
    acknowledged: u64,
    // The byte that was sent and is not acknowledged yet.
    outstanding: Option<u8>,
    // The turns since it was last sent.
    timer: u32,
}

impl Model for Sender {
    ghost use Rattle.machine_ring.specs.RingLink.Senders.{Sender};

    ghost Value = { Sender };

    ghost view = { λ s. record { acknowledged = s.acknowledged; outstanding = s.outstanding; timer = s.timer } };
}

impl Sender {
    /// Nothing was acknowledged, and no byte is outstanding.
    pub fn new() -> Sender
        ensures { result ≡ new_sender }
    {
        Sender {
            acknowledged: 0,
            outstanding: None,
            timer: 0,
        }
    }

    /// A turn, with the first byte that waits. Where no byte is outstanding, that one is sent, and is outstanding.
    /// Else the timer grows by 1; at `wait` turns the outstanding byte is sent again, and the timer is 0. The answer
    /// is what is sent, the byte with its number from 0, which is how many were acknowledged before it; `None`
    /// exactly where nothing is sent.
    pub fn turn(&mut self, first: Option<u8>, wait: u32) -> Option<(u64, u8)>
        requires { self.old.timer < wait }
        ensures sent { result ≡ sent_in_turn self.old first wait }
        ensures sender { self.new ≡ sender_after_turn self.old first wait }
    {
        match self.outstanding {
            None => Some(self.send(first?)),
            Some(byte) => {
                self.timer += 1;
                if self.timer < wait {
                    return None;
                }
                Some(self.send(byte))
            }
        }
    }

    // Sends a byte, which then is outstanding.
    fn send(&mut self, byte: u8) -> (u64, u8)
        ensures sent { result ≡ (self.old.acknowledged, byte) }
        ensures sender { self.new ≡ sender_after_sending self.old byte }
    {
        self.outstanding = Some(byte);
        self.timer = 0;
        (self.acknowledged, byte)
    }

    /// An acknowledgement of `count` bytes comes. The answer is true exactly where that is more than were
    /// acknowledged; then so many are, and no byte is outstanding. Else nothing changes.
    pub fn acknowledge(&mut self, count: u64) -> bool
        ensures new { result ≡ is_new_count self.old count }
        ensures sender { self.new ≡ sender_after_count self.old count }
    {
        if count <= self.acknowledged {
            return false;
        }
        self.acknowledged = count;
        self.outstanding = None;
        true
    }
}
