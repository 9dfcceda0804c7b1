// The places at which packets are queued.

/// Where packets are queued.
#[derive(Clone, Copy)]
pub enum QueuePlace {
    /// At the task with the number.
    OfTask(u32),
    /// At the clock.
    OfClock,
    /// At the keyboard.
    OfKeyboard,
    /// At the output device.
    OfOutput,
    /// At the console, as reads that wait for a line.
    OfConsole,
}
