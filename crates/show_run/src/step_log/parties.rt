// Who has a queue or sends packets, in words.
ghost use Rattle.std.specs.Prelude.{◌≡◌};
ghost use Rattle.show_run.specs.StepLog.Events.{named, party, party_seen};

use byte_streams::Piece;
use byte_streams::Piece::{Signed, Text};
use kernel_model::numbers::{CLOCK, KEYBOARD, OUTPUT, PENDING};

/// Somebody who has a queue or sends packets.
#[derive(Clone, Copy)]
pub struct Party {
    /// The words.
    pub words: &'static [u8],
    /// The number of a task; no text for all others.
    pub number: Piece<'static>,
}

/// The owner of a queue, or the sender of a packet, with the number: a task, a device, or the console's reads.
#[tactic(auto, unfolding(crate::specs::StepLog::Events::party))]
pub(crate) fn party_of(q: i32) -> Party
    ensures { party_seen result ≡ party q }
{
    match q.cast_unsigned() {
        CLOCK => named(b"the clock"),
        KEYBOARD => named(b"the keyboard"),
        OUTPUT => named(b"the output"),
        PENDING => named(b"the reads at the console"),
        _ => Party {
            words: b"task ",
            number: Signed(i64::from(q)),
        },
    }
}

fn named(words: &'static [u8]) -> Party
    ensures { party_seen result ≡ named words.now }
{
    Party {
        words,
        number: Text(b""),
    }
}
