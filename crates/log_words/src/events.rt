// The events of a step, as its lines say them.
use crate::bytes::split_at_text;
use module_text::{after_word, number};
use run_names::Party;
use session_text::number_field;

/// Something that the kernel did.
#[derive(Clone, Copy)]
pub enum Event {
    /// A packet came into the queue of somebody.
    Accepted {
        /// Whose queue it is.
        to: Party,
        /// The packet's address.
        packet: u32,
        /// Who has sent it.
        from: Party,
    },
    /// A packet was taken from a queue by the one whose it is.
    Taken {
        /// Whose queue it is.
        by: Party,
        /// The packet's address.
        packet: u32,
        /// Who has sent it.
        from: Party,
    },
    /// A packet was removed from a queue.
    Dequeued {
        /// Whose queue it is.
        from: Party,
        /// The packet's address.
        packet: u32,
    },
    /// A task runs, or nobody where it is 0.
    Runs {
        /// Its number.
        task: u32,
    },
}

impl Event {
    /// The event that a line says, without its moment; `None` where it says none.
    pub fn read(line: &[u8]) -> Option<Event> {
        if let Some(rest) = after_word(b"accept packet ", line) {
            return accepted(rest);
        }
        if let Some(rest) = after_word(b"take ", line) {
            return taken(rest);
        }
        if let Some(rest) = after_word(b"dequeue packet ", line) {
            return dequeued(rest);
        }
        runs(after_word(b"run ", line)?)
    }

    /// Whether one of the clock, the keyboard and the output takes a packet.
    pub fn is_taken_by_device(self) -> bool {
        matches!(
            self,
            Event::Taken {
                by: Party::Clock | Party::Keyboard | Party::Output,
                ..
            }
        )
    }

    /// Whether the output takes a packet.
    pub fn is_taken_by_output(self) -> bool {
        matches!(
            self,
            Event::Taken {
                by: Party::Output,
                ..
            }
        )
    }

    /// Whether the clock takes a packet, or sends one.
    pub fn is_of_clock(self) -> bool {
        matches!(
            self,
            Event::Taken {
                by: Party::Clock,
                ..
            } | Event::Accepted {
                from: Party::Clock,
                ..
            }
        )
    }
}

// A packet that comes into a queue.
fn accepted(text: &[u8]) -> Option<Event> {
    let (packet, rest) = packet_field(text)?;
    let (from, to) = split_at_text(after_word(b"from ", rest)?, b" to ")?;
    Some(Event::Accepted {
        to: Party::read(to)?,
        packet,
        from: Party::read(from)?,
    })
}

// A packet that is taken.
fn taken(text: &[u8]) -> Option<Event> {
    let (by, rest) = split_at_text(text, b" takes packet ")?;
    let (packet, rest) = packet_field(rest)?;
    let from = after_word(b"of ", rest)?;
    Some(Event::Taken {
        by: Party::read(by)?,
        packet,
        from: Party::read(from)?,
    })
}

// A packet that is removed from a queue.
fn dequeued(text: &[u8]) -> Option<Event> {
    let (packet, rest) = packet_field(text)?;
    let from = after_word(b"leaves the queue of ", rest)?;
    Some(Event::Dequeued {
        from: Party::read(from)?,
        packet,
    })
}

// Who goes on.
fn runs(text: &[u8]) -> Option<Event> {
    if text == b"nobody runs".as_slice() {
        return Some(Event::Runs { task: 0 });
    }
    let digits = after_word(b"task ", text)?.strip_suffix(b" runs")?;
    let task = u32::try_from(number(digits)?).ok()?;
    Some(Event::Runs { task })
}

// The address of a packet, and what comes after it and a blank.
fn packet_field(text: &[u8]) -> Option<(u32, &[u8])> {
    let (packet, rest) = number_field(text)?;
    Some((u32::try_from(packet).ok()?, rest))
}
