// What the input of a ring is.
use session_text::{Bytes, Session};

/// The most rounds of a ring.
pub const MOST_ROUNDS: u64 = 4_000_000_000;

/// The most rounds after which a byte is sent again.
pub const MOST_WAIT: u64 = 1_000_000;

/// The most letters of a direction.
pub const MOST_LETTERS: usize = 10_000;

/// The line of `LEFT`.
pub const LEFT_LINE: u32 = 4;

/// The input of a ring: what its link does, and its two machines.
#[derive(Drop)]
pub struct RingInput {
    /// The most rounds.
    pub rounds: u64,
    /// The rounds after which a byte that was not acknowledged is sent again.
    pub wait: u32,
    /// What happens to data, a letter a round: `D`, `X`, `R`, `O` or `.`.
    pub link: Bytes,
    /// What happens to acknowledgements, in the same letters.
    pub acks: Bytes,
    /// The machine whose console bytes go over the link.
    pub left: Session,
    /// The machine, with a kernel, at which they are typed.
    pub right: Session,
    /// The line of `LEFT`; line n of that session is line `left_line + n` of the input.
    pub left_line: u32,
    /// The line of `RIGHT`, and of the lines of that session likewise.
    pub right_line: u32,
}
