// Why a session's line is refused.

/// A line of a session that does not boot: its number in the text, and the code of its refusal.
#[derive(Clone, Copy)]
pub struct BootRefusal {
    /// The number of the session's line, from 1.
    pub line: u32,
    /// The code that says why.
    pub code: u32,
}
