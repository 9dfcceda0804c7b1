// Why a machine has stopped.

/// Why a machine has stopped.
#[derive(Clone, Copy)]
pub enum Stop {
    /// It has taken all the steps that it was asked for.
    Steps,
    /// It quit with this code.
    Quit(u32),
    /// The shell ended the session.
    Finish,
    /// An instruction of this task faulted; the task of a machine without a kernel is 0.
    Fault { code: u32, address: u32, task: u32 },
}
