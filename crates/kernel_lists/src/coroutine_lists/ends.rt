// Why a call on a coroutine is refused.

/// A refusal; then neither the store nor the registers have changed.
#[derive(Clone, Copy)]
pub enum CoEnd {
    /// Code 21: there is no such coroutine in the task.
    Unknown,
    /// Code 22: the coroutine has a parent.
    HasParent,
    /// Code 23: no coroutine is current, so there is no parent.
    NoParent,
}
