// What is set for a ring.
use session_text::Bytes;

/// The most bytes that wait where the left machine takes a step.
pub const MOST_WAITING: usize = 8_192;

/// What is set for a ring before its first round.
#[derive(Drop)]
pub struct Terms {
    /// The most rounds.
    pub rounds: u64,
    /// The rounds after which a byte that was not acknowledged is sent again.
    pub wait: u32,
    /// What happens to data, a letter a round: `D`, `X`, `R`, `O` or `.`.
    pub link: Bytes,
    /// What happens to acknowledgements, in the same letters.
    pub acks: Bytes,
    /// The most steps of the left machine.
    pub left_steps: u64,
    /// The most steps of the right machine.
    pub right_steps: u64,
}
