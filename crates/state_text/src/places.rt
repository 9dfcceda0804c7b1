// The places where packets wait.

/// Where a packet waits.
#[derive(Clone, Copy)]
pub(crate) enum Place {
    /// At the clock.
    Clock,
    /// At the keyboard.
    Keyboard,
    /// At the output.
    Output,
    /// At the console, which has taken it and waits for a line.
    Console,
    /// On the queue of the task with the number.
    Task(u32),
}
