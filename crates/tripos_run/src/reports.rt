// What is written of a run.

/// What is written of a run, besides its closing line.
#[derive(Clone, Copy)]
pub enum Report {
    /// The console bytes.
    Console,
    /// The console bytes, and after the closing line the words of the store that are not 0.
    Words,
    /// A line for each event of the kernel.
    Events,
    /// How many bytes the session has, and how many the console bytes are, with their hash.
    Sums(u64),
}
