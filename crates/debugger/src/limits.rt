// The steps of a call.

/// The steps that a machine had taken before a call of the debugger, and may have taken at its end.
#[derive(Clone, Copy)]
pub struct Limits {
    /// The steps before it.
    pub first: u64,
    /// The steps at its end, at most.
    pub last: u64,
}
