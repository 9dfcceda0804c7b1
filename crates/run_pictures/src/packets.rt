// What a log says of packets.

use crate::parties::{Party, leading_party};
use crate::texts::leading_number;
use module_text::after_word;

/// What a log says of a packet that comes into a queue.
#[derive(Drop)]
pub enum Move<'a> {
    /// A packet from one party to another.
    Packet {
        /// The packet.
        packet: u64,
        /// Who sends it, or sends it back.
        from: Party,
        /// Whose queue it comes into.
        to: Party,
        /// What else is said, without the comma before it.
        more: &'a [u8],
    },
    /// The fault of a task, which its packet takes to the reporter of faults.
    Fault(Party),
}

/// What words say of a packet that comes into a queue; `None` where they say nothing of it, or say that it waits for a line of the console.
pub fn move_of(words: &[u8]) -> Option<Move<'_>> {
    if let Some(rest) = after_word(b"the fault of ", words) {
        return Some(Move::Fault(leading_party(rest)?.0));
    }
    let (packet, rest) = leading_number(after_word(b"packet ", words)?)?;
    let (from, rest) = leading_party(after_word(b" from ", rest)?)?;
    let rest = after_word(b" back", rest).unwrap_or(rest);
    let (to, rest) = leading_party(after_word(b" to ", rest)?)?;
    Some(Move::Packet {
        packet,
        from,
        to,
        more: after_word(b", ", rest).unwrap_or(&[]),
    })
}

/// A packet that a task takes.
#[derive(Clone, Copy)]
pub struct Taken {
    /// Who takes it.
    pub taker: Party,
    /// The packet.
    pub packet: u64,
    /// Who sent it.
    pub from: Party,
}

/// The packet that is taken, by the words of a log; `None` where they say nothing of one.
pub fn taken_of(words: &[u8]) -> Option<Taken> {
    let (taker, rest) = leading_party(words)?;
    let (packet, rest) = leading_number(after_word(b" takes packet ", rest)?)?;
    let (from, _) = leading_party(after_word(b" of ", rest)?)?;
    Some(Taken {
        taker,
        packet,
        from,
    })
}
