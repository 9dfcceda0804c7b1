// The end of a link that receives: it takes each byte once, in order.
ghost use Rattle.std.specs.Prelude.{◌≡◌, ◌+◌, ◌<◌, ◌^◌};
ghost use Rattle.machine_ring.specs.RingLink.Receivers.{count_after, is_taken};

use std::marker::Model;

/// The end that receives. It is seen as the number of bytes that it took.
#[derive(Drop)]
pub struct Receiver {
    // How many bytes it took.
    count: u64,
}

impl Model for Receiver {
    ghost use Rattle.std.specs.Prelude.{ℕ};

    ghost Value = { ℕ };

    ghost view = { λ r. r.count };
}

impl Receiver {
    /// No byte was taken.
    pub fn new() -> Receiver
        ensures { result ≡ 0 }
    {
        Receiver { count: 0 }
    }

    /// Byte `i` comes, counted from 0, and there is room for it or not. The answer is true exactly where it is taken:
    /// it is the next one, and there is room. Then the count is one more; else it stays.
    pub fn arrive(&mut self, i: u64, room: bool) -> bool
        requires { self.old + 1 < 2 ^ 64 }
        ensures taken { result ≡ is_taken self.old i room }
        ensures count { self.new ≡ count_after self.old i room }
    {
        if i != self.count || !room {
            return false;
        }
        self.count += 1;
        true
    }

    /// How many bytes were taken.
    pub fn count(&self) -> u64
        ensures { result ≡ self.now }
    {
        self.count
    }
}
