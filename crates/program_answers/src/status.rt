// How a call of the program ends.
ghost use Rattle.std.specs.Prelude.{◌≡◌};
ghost use Rattle.program_answers.specs.Exit.{exit_code};

/// How a call ended. What it wrote is beside each.
#[derive(Clone, Copy, Debug, PartialEq, Eq)]
pub enum Status {
    /// The command's bytes.
    Done,
    /// The command's bytes; the machine was stopped by a fault, which the closing line names.
    GuestFault,
    /// The usage: the words are no command. Nothing was read.
    Usage,
    /// The refusal: the input has not the form that the command reads, and the line and code say where and why.
    Refused,
    /// The refusal to boot: what the input puts into the machine has no place there.
    NoBoot,
    /// Nothing: the source failed.
    ReadFault,
    /// A prefix of what would have been written: the sink failed.
    WriteFault,
    /// The input is longer than 67,108,864 bytes.
    TooLong,
    /// Nothing: memory could not be had before the first step.
    WantMemory,
}

/// The exit status of the program.
pub fn exit_code(status: Status) -> u8
    ensures { result ≡ exit_code status }
{
    match status {
        Status::Done => 0,
        Status::GuestFault => 10,
        Status::Usage => 2,
        Status::Refused => 3,
        Status::NoBoot => 4,
        Status::ReadFault => 5,
        Status::WriteFault => 6,
        Status::TooLong => 7,
        Status::WantMemory => 8,
    }
}
